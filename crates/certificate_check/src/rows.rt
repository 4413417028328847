//! The row check.
ghost use Rattle.std.specs.declared.cmp.Ordering.TheVariants.{Less};
ghost use Rattle.std.specs.Prelude.{◌≡◌, ◌↔◌, ◌≤◌, ◌<◌, ◌^◌, IfOk, IsTrue, MatchOption, length};
ghost use Rattle.certificate.specs.InOrder.{AllRight, FirstWrong, IfLast};
ghost use Rattle.certificate.specs.NumberedRows.{AreLive, key_of, row_of, rows_of};
ghost use Rattle.certificate.specs.RowCheck.{RootIsRow, RowRight, RowsFail, RowsHold};
ghost use Rattle.flight_paths.specs.Positions.{Fits};
ghost use Rattle.residual_keys.specs.ResidualOrder.{StateBefore};
ghost use Rattle.residual_table.specs.Keys.{IsLive, residual_at};
ghost use Rattle.residual_table.specs.Ranks.{AreRanks};

use certificate::{CertRows, NumberedRow, RowNumbers};
use fare_book::Book;
use fare_law::{Mem, Request};
use flight_paths::Position;
use residual_keys::{Residual, root};
use residual_table::{Ranks, ResidualKey, ResidualParts, SortKey, ranks_order};
use search_steps::residuals_tell;
use std::alloc::Global;
use std::cmp::Ordering;

/// The place where the row check fails, if it does.
pub fn rows_fail(
    alloc: Global,
    book: &Book,
    request: &Request,
    rows: &CertRows,
) -> Result<Option<u32>, Mem>
    requires slices { 1 ≤ length request.now.slices }
    requires few { length rows.now < 2 ^ 32 }
    ensures { IfOk result (λ place. MatchOption place (RowsHold book.now request.now rows.now) (RowsFail book.now request.now rows.now)) }
{
    let wrong = first_wrong(alloc, book, request, rows)?;
    if wrong.is_some() || has_root(book, request, rows) {
        return Ok(wrong);
    }
    Ok(Some(0))
}

/// The place of the first row that isn't greater than the one before, or doesn't fit the request.
fn first_wrong(
    alloc: Global,
    book: &Book,
    request: &Request,
    rows: &CertRows,
) -> Result<Option<u32>, Mem>
    requires { length rows.now < 2 ^ 32 }
    ensures { IfOk result (λ place. MatchOption place (AllRight (RowRight book.now request.now) rows.now) (FirstWrong (RowRight book.now request.now) rows.now)) }
{
    let RowNumbers { parts, rows } = rows.by_number();
    let ranks = parts.ranks(alloc)?;
    let judge = Judge {
        book,
        request,
        parts,
        ranks,
    };
    for i in 0..rows.len() {
        if !judge.is_right(&rows[..i], &rows[i]) {
            return Ok(Some(i as u32 + 1));
        }
    }
    Ok(None)
}

/// What rows are judged by: residuals compare as the ranks of their parts do.
#[derive(Drop)]
struct Judge<'c> {
    book: &'c Book,
    request: &'c Request,
    parts: &'c ResidualParts,
    ranks: Ranks,
}

impl Judge<'_> {
    /// Whether a row is greater than the last of those before it, and fits the request.
    fn is_right(&self, before: &[NumberedRow], row: &NumberedRow) -> bool
        requires ranks { AreRanks self.now.parts.now self.now.ranks }
        requires before { AreLive self.now.parts.now before.now }
        requires row { IsLive self.now.parts.now (key_of row.now) }
        ensures { IsTrue result ↔ RowRight self.now.book.now self.now.request.now (rows_of self.now.parts.now before.now) (row_of self.now.parts.now row.now) }
    {
        self.ascends(before, row) && self.fits(row)
    }

    /// Whether a row's residual is greater than that of the last of those before it, where there is one.
    fn ascends(&self, before: &[NumberedRow], row: &NumberedRow) -> bool
        requires ranks { AreRanks self.now.parts.now self.now.ranks }
        requires before { AreLive self.now.parts.now before.now }
        requires row { IsLive self.now.parts.now (key_of row.now) }
        ensures { IsTrue result ↔ IfLast (λ last. StateBefore last.residual (row_of self.now.parts.now row.now).residual) (rows_of self.now.parts.now before.now) }
    {
        match before.last() {
            Some(last) => self.is_before(&last.key(), &row.key()),
            None => true,
        }
    }

    /// Whether the residual of the one key comes before that of the other.
    fn is_before(&self, one: &ResidualKey, other: &ResidualKey) -> bool
        requires ranks { AreRanks self.now.parts.now self.now.ranks }
        requires one { IsLive self.now.parts.now one.now }
        requires other { IsLive self.now.parts.now other.now }
        ensures { IsTrue result ↔ StateBefore (residual_at self.now.parts.now one.now) (residual_at self.now.parts.now other.now) }
    {
        ranks_order();
        is_below(&self.ranks.of(one), &self.ranks.of(other))
    }

    /// Whether a row's position is one of the request.
    fn fits(&self, row: &NumberedRow) -> bool
        requires { IsLive self.now.parts.now (key_of row.now) }
        ensures { IsTrue result ↔ Fits self.now.book.now self.now.request.now.slices (row_of self.now.parts.now row.now).residual.at }
    {
        let at = self.parts.position_at(row.key().position);
        fits(self.book, self.request, &at)
    }
}

/// Whether the one sorts before the other.
fn is_below(one: &SortKey, other: &SortKey) -> bool
    ensures { IsTrue result ↔ (⟦<SortKey as Ord>⟧.cmp one.now other.now ≡ Less) }
{
    matches!(one.cmp(other), Ordering::Less)
}

/// Whether a position is one of the request.
fn fits(book: &Book, request: &Request, at: &Position) -> bool
    ensures { IsTrue result ↔ Fits book.now request.now.slices at.now }
{
    let flights = book.timetable().schedule().flights().len();
    usize::from(at.slice) < request.slices.len()
        && at.leg <= 2
        && at.via.is_some() == (at.leg == 2)
        && at.lo <= at.hi
        && at.hi as usize <= flights
}

/// Whether some row is that of the root.
fn has_root(book: &Book, request: &Request, rows: &CertRows) -> bool
    requires { 1 ≤ length request.now.slices }
    ensures { IsTrue result ↔ RootIsRow book.now request.now rows.now }
{
    let root = root(book, request);
    for place in 0..rows.len() {
        if is_same(&rows.row(place).residual, &root) {
            return true;
        }
    }
    false
}

/// Whether two residuals are one.
fn is_same(one: &Residual, other: &Residual) -> bool
    ensures { IsTrue result ↔ (one.now ≡ other.now) }
{
    residuals_tell();
    one.keeps();
    other.keeps();
    *one == *other
}
