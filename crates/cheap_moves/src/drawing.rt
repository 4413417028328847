//! The least moves of a residual as they are drawn, flight by flight and path by path, under a limit that sinks. Only the
//! paths of one first flight are listed at a time.
ghost use Rattle.std.specs.Prelude.{◌≡◌, ◌<◌, ◌≤◌, ◌+◌, ◌++◌, ◌∷◌, [], length, List as Items, Option as Maybe, IfOk, IsTrue, None, OnOk, Some, map};
ghost use Rattle.cheap_moves.specs.declared.hopes.Hopes.{Hopes as TheHopes};
ghost use Rattle.cheap_moves.specs.Drawing.{AreNext, ArePassed, AreTailsFor, IsDrawn, IsNext};
ghost use Rattle.cheap_moves.specs.Hopes.{AreHopes};
ghost use Rattle.cheap_moves.specs.Leads.{AreLeads};
ghost use Rattle.cheap_moves.specs.LeastMoves.{AreKept, Counts};
ghost use Rattle.cheap_moves.specs.Tails.{AreTailsOver};
ghost use Rattle.fare_ends.specs.Markets.{AreMarkets};
ghost use Rattle.fare_law.specs.Codes.{move_code};
ghost use Rattle.fare_law.specs.Limits.{IsRequest};
ghost use Rattle.fare_law.specs.Lists.{AllDifferent};
ghost use Rattle.flight_paths.specs.declared.positions.Path.{Path as OnePath};
ghost use Rattle.schedule_book.specs.Departures.{DepartsFrom};

use crate::MoveSearch;
use crate::bounds::ResidualBounds;
use crate::bucket::{add_counted, cut, is_full};
use crate::endings::{Endings, endings_of, narrow};
use crate::hopes::{Hopes, PathClass, PathStart, hopes_of, schedule_of};
use crate::leads::Lead;
use crate::least::CountedMove;
use crate::paths::{Opening, paths_from};
use crate::ways::add_path;
use component_table::Markets;
use fare_law::{List, Mem, Place};
use flight_paths::{Path, SomeTails};
use residual_keys::book_limits;
use std::alloc::Global;
use ticket_order::{codes_tell, order_laws};

/// What is drawn: as many moves as are wanted of those within the limit of a search, with its leads, what these tell, and all
/// tails of the next slice.
#[derive(Drop)]
pub struct Draw<'a, B> {
    pub search: &'a MoveSearch<'a, B>,
    pub leads: &'a [Lead],
    pub hopes: &'a Hopes,
    pub tails: &'a [Path],
    pub wanted: usize,
}

/// The least moves that were found so far, the limit of the others, and what the leads tell within it, where it has sunk.
#[derive(Drop)]
pub struct Drawn {
    pub kept: Vec<CountedMove>,
    pub limit: Option<u128>,
    sunk: Option<Hopes>,
}

/// Draws from all paths of a position on which a move may be among the first.
pub fn draw_all<B: ResidualBounds>(
    alloc: Global,
    draw: &Draw<'_, B>,
    markets: &mut Markets,
) -> Result<Drawn, Mem>
    requires request { IsRequest draw.now.search.now.request.now }
    requires known { draw.now.search.now.residual.now.at.slice < length draw.now.search.now.request.now.slices }
    requires leads { AreLeads draw.now.search.now.book.now draw.now.search.now.request.now draw.now.search.now.residual.now (B.bound draw.now.search.now.bounds.now) draw.now.leads.now }
    requires hopes { AreHopes ⟦<PathStart as PartialEq>⟧.eq ⟦<Place as PartialEq>⟧.eq ⟦<PathClass as PartialEq>⟧.eq draw.now.search.now.book.now draw.now.search.now.request.now draw.now.search.now.residual.now (B.bound draw.now.search.now.bounds.now) draw.now.search.now.limit draw.now.hopes.now }
    requires tails { AreTailsOver draw.now.search.now.book.now draw.now.search.now.request.now.slices (draw.now.search.now.residual.now.at.slice + 1) draw.now.tails.now }
    requires markets { AreMarkets draw.now.search.now.book.now markets.old.kept.items }
    ensures markets { AreMarkets draw.now.search.now.book.now markets.new.kept.items }
    ensures drawn { IfOk result (λ d. AreKept (Counts draw.now.search.now.book.now draw.now.search.now.request.now draw.now.search.now.residual.now (B.bound draw.now.search.now.bounds.now) draw.now.search.now.limit) draw.now.wanted draw.now.search.now.limit d.kept.items d.limit) }
{
    order_laws();
    let residual = draw.search.residual;
    let mut endings = endings_of(alloc, draw.search.book, draw.tails, draw.hopes)?;
    let mut drawn = Drawn {
        kept: Vec::new(alloc),
        limit: draw.search.limit,
        sunk: None,
    };
    for number in schedule_of(draw.search.book).from_place(
        residual.at.place,
        residual.at.lo,
        residual.at.hi,
    ) {
        let paths = list_paths(alloc, draw, &drawn, &mut endings, *number)?;
        draw_paths(alloc, &mut drawn, draw, markets, paths.as_slice())?;
    }
    Ok(drawn)
}

/// The paths by the flight of this number on which a move within the limit may be, by what the leads tell of it.
fn list_paths<B: ResidualBounds>(
    alloc: Global,
    draw: &Draw<'_, B>,
    drawn: &Drawn,
    endings: &mut Endings,
    number: u32,
) -> Result<List<Path>, Mem>
    requires known { draw.now.search.now.residual.now.at.slice < length draw.now.search.now.request.now.slices }
    requires hopes { AreHopes ⟦<PathStart as PartialEq>⟧.eq ⟦<Place as PartialEq>⟧.eq ⟦<PathClass as PartialEq>⟧.eq draw.now.search.now.book.now draw.now.search.now.request.now draw.now.search.now.residual.now (B.bound draw.now.search.now.bounds.now) draw.now.search.now.limit draw.now.hopes.now }
    requires tails { AreTailsOver draw.now.search.now.book.now draw.now.search.now.request.now.slices (draw.now.search.now.residual.now.at.slice + 1) draw.now.tails.now }
    requires range { (draw.now.search.now.residual.now.at.lo ≤ number) × (number < draw.now.search.now.residual.now.at.hi) }
    requires departs { DepartsFrom draw.now.search.now.book.now.timetable.flights draw.now.search.now.residual.now.at.place number }
    requires drawn { (seen : Items OnePath) × IsDrawn ⟦<PathStart as PartialEq>⟧.eq ⟦<Place as PartialEq>⟧.eq ⟦<PathClass as PartialEq>⟧.eq draw.now.search.now.book.now draw.now.search.now.request.now draw.now.search.now.residual.now (B.bound draw.now.search.now.bounds.now) draw.now.search.now.limit draw.now.wanted seen drawn.now × AreTailsFor draw.now.search.now.book.now draw.now.search.now.request.now draw.now.search.now.residual.now (B.bound draw.now.search.now.bounds.now) draw.now.search.now.limit draw.now.wanted seen draw.now.tails.now endings.old.numbers }
    ensures tails { OnOk result ((seen : Items OnePath) → IsDrawn ⟦<PathStart as PartialEq>⟧.eq ⟦<Place as PartialEq>⟧.eq ⟦<PathClass as PartialEq>⟧.eq draw.now.search.now.book.now draw.now.search.now.request.now draw.now.search.now.residual.now (B.bound draw.now.search.now.bounds.now) draw.now.search.now.limit draw.now.wanted seen drawn.now → AreTailsFor draw.now.search.now.book.now draw.now.search.now.request.now draw.now.search.now.residual.now (B.bound draw.now.search.now.bounds.now) draw.now.search.now.limit draw.now.wanted seen draw.now.tails.now endings.old.numbers → AreTailsFor draw.now.search.now.book.now draw.now.search.now.request.now draw.now.search.now.residual.now (B.bound draw.now.search.now.bounds.now) draw.now.search.now.limit draw.now.wanted seen draw.now.tails.now endings.new.numbers) }
    ensures paths { IfOk result (λ paths. (seen : Items OnePath) → IsDrawn ⟦<PathStart as PartialEq>⟧.eq ⟦<Place as PartialEq>⟧.eq ⟦<PathClass as PartialEq>⟧.eq draw.now.search.now.book.now draw.now.search.now.request.now draw.now.search.now.residual.now (B.bound draw.now.search.now.bounds.now) draw.now.search.now.limit draw.now.wanted seen drawn.now → AreTailsFor draw.now.search.now.book.now draw.now.search.now.request.now draw.now.search.now.residual.now (B.bound draw.now.search.now.bounds.now) draw.now.search.now.limit draw.now.wanted seen draw.now.tails.now endings.old.numbers → ArePassed draw.now.search.now.book.now draw.now.search.now.request.now draw.now.search.now.residual.now (B.bound draw.now.search.now.bounds.now) draw.now.search.now.limit draw.now.wanted seen (λ n. n ≡ number) paths) }
{
    let search = draw.search;
    let residual = search.residual;
    let hopes = hopes_within(drawn, draw.hopes);
    narrow(alloc, endings, search.book, draw.tails, hopes)?;
    let opening = Opening {
        schedule: schedule_of(search.book),
        request: search.request,
        position: &residual.at,
        tails: SomeTails {
            all: draw.tails,
            marks: &[],
            numbers: endings.numbers.as_slice(),
        },
    };
    let paths = paths_from(alloc, &opening, hopes, number)?;
    Ok(paths)
}

/// Draws from paths that weren't seen before.
fn draw_paths<B: ResidualBounds>(
    alloc: Global,
    drawn: &mut Drawn,
    draw: &Draw<'_, B>,
    markets: &mut Markets,
    paths: &[Path],
) -> Result<(), Mem>
    requires request { IsRequest draw.now.search.now.request.now }
    requires leads { AreLeads draw.now.search.now.book.now draw.now.search.now.request.now draw.now.search.now.residual.now (B.bound draw.now.search.now.bounds.now) draw.now.leads.now }
    requires hopes { AreHopes ⟦<PathStart as PartialEq>⟧.eq ⟦<Place as PartialEq>⟧.eq ⟦<PathClass as PartialEq>⟧.eq draw.now.search.now.book.now draw.now.search.now.request.now draw.now.search.now.residual.now (B.bound draw.now.search.now.bounds.now) draw.now.search.now.limit draw.now.hopes.now }
    requires markets { AreMarkets draw.now.search.now.book.now markets.old.kept.items }
    requires drawn { (seen : Items OnePath) × AreNext draw.now.search.now.book.now draw.now.search.now.request.now draw.now.search.now.residual.now seen paths.now × IsDrawn ⟦<PathStart as PartialEq>⟧.eq ⟦<Place as PartialEq>⟧.eq ⟦<PathClass as PartialEq>⟧.eq draw.now.search.now.book.now draw.now.search.now.request.now draw.now.search.now.residual.now (B.bound draw.now.search.now.bounds.now) draw.now.search.now.limit draw.now.wanted seen drawn.old }
    ensures markets { AreMarkets draw.now.search.now.book.now markets.new.kept.items }
    ensures drawn { OnOk result ((seen : Items OnePath) → AreNext draw.now.search.now.book.now draw.now.search.now.request.now draw.now.search.now.residual.now seen paths.now → IsDrawn ⟦<PathStart as PartialEq>⟧.eq ⟦<Place as PartialEq>⟧.eq ⟦<PathClass as PartialEq>⟧.eq draw.now.search.now.book.now draw.now.search.now.request.now draw.now.search.now.residual.now (B.bound draw.now.search.now.bounds.now) draw.now.search.now.limit draw.now.wanted seen drawn.old → IsDrawn ⟦<PathStart as PartialEq>⟧.eq ⟦<Place as PartialEq>⟧.eq ⟦<PathClass as PartialEq>⟧.eq draw.now.search.now.book.now draw.now.search.now.request.now draw.now.search.now.residual.now (B.bound draw.now.search.now.bounds.now) draw.now.search.now.limit draw.now.wanted (seen ++ paths.now) drawn.new) }
{
    for path in paths {
        draw_path(alloc, drawn, draw, markets, path)?;
    }
    Ok(())
}

/// Draws from a path that wasn't seen before.
fn draw_path<B: ResidualBounds>(
    alloc: Global,
    drawn: &mut Drawn,
    draw: &Draw<'_, B>,
    markets: &mut Markets,
    path: &Path,
) -> Result<(), Mem>
    requires request { IsRequest draw.now.search.now.request.now }
    requires leads { AreLeads draw.now.search.now.book.now draw.now.search.now.request.now draw.now.search.now.residual.now (B.bound draw.now.search.now.bounds.now) draw.now.leads.now }
    requires hopes { AreHopes ⟦<PathStart as PartialEq>⟧.eq ⟦<Place as PartialEq>⟧.eq ⟦<PathClass as PartialEq>⟧.eq draw.now.search.now.book.now draw.now.search.now.request.now draw.now.search.now.residual.now (B.bound draw.now.search.now.bounds.now) draw.now.search.now.limit draw.now.hopes.now }
    requires markets { AreMarkets draw.now.search.now.book.now markets.old.kept.items }
    requires drawn { (seen : Items OnePath) × IsNext draw.now.search.now.book.now draw.now.search.now.request.now draw.now.search.now.residual.now seen path.now × IsDrawn ⟦<PathStart as PartialEq>⟧.eq ⟦<Place as PartialEq>⟧.eq ⟦<PathClass as PartialEq>⟧.eq draw.now.search.now.book.now draw.now.search.now.request.now draw.now.search.now.residual.now (B.bound draw.now.search.now.bounds.now) draw.now.search.now.limit draw.now.wanted seen drawn.old }
    ensures markets { AreMarkets draw.now.search.now.book.now markets.new.kept.items }
    ensures drawn { OnOk result ((seen : Items OnePath) → IsNext draw.now.search.now.book.now draw.now.search.now.request.now draw.now.search.now.residual.now seen path.now → IsDrawn ⟦<PathStart as PartialEq>⟧.eq ⟦<Place as PartialEq>⟧.eq ⟦<PathClass as PartialEq>⟧.eq draw.now.search.now.book.now draw.now.search.now.request.now draw.now.search.now.residual.now (B.bound draw.now.search.now.bounds.now) draw.now.search.now.limit draw.now.wanted seen drawn.old → IsDrawn ⟦<PathStart as PartialEq>⟧.eq ⟦<Place as PartialEq>⟧.eq ⟦<PathClass as PartialEq>⟧.eq draw.now.search.now.book.now draw.now.search.now.request.now draw.now.search.now.residual.now (B.bound draw.now.search.now.bounds.now) draw.now.search.now.limit draw.now.wanted (seen ++ path.now ∷ []) drawn.new) }
{
    codes_tell();
    book_limits(draw.search.book);
    let mut found = List::new(alloc);
    let narrowed = MoveSearch {
        book: draw.search.book,
        request: draw.search.request,
        residual: draw.search.residual,
        bounds: draw.search.bounds,
        limit: drawn.limit,
    };
    let hopes = hopes_within(drawn, draw.hopes);
    add_path(alloc, &mut found, &narrowed, hopes, markets, path)?;
    add_counted(&mut drawn.kept, found.as_slice(), draw.search.bounds)?;
    sink(alloc, drawn, draw)
}

/// What the leads tell within the limit: the first hopes, where it hasn't sunk.
fn hopes_within<'h>(drawn: &'h Drawn, first: &'h Hopes) -> &'h Hopes
    ensures some { (h : TheHopes) → drawn.now.sunk ≡ Some h → result.now ≡ h }
    ensures none { drawn.now.sunk ≡ None → result.now ≡ first.now }
{
    match &drawn.sunk {
        Some(hopes) => hopes,
        None => first,
    }
}

/// Keeps only the first moves and lets the limit sink, where there are many more than are wanted.
fn sink<B: ResidualBounds>(alloc: Global, drawn: &mut Drawn, draw: &Draw<'_, B>) -> Result<(), Mem>
    requires leads { AreLeads draw.now.search.now.book.now draw.now.search.now.request.now draw.now.search.now.residual.now (B.bound draw.now.search.now.bounds.now) draw.now.leads.now }
    requires codes { AllDifferent (map (λ m. move_code m.chosen.mv) drawn.old.kept.items) }
    ensures { OnOk result ((seen : Items OnePath) → IsDrawn ⟦<PathStart as PartialEq>⟧.eq ⟦<Place as PartialEq>⟧.eq ⟦<PathClass as PartialEq>⟧.eq draw.now.search.now.book.now draw.now.search.now.request.now draw.now.search.now.residual.now (B.bound draw.now.search.now.bounds.now) draw.now.search.now.limit draw.now.wanted seen drawn.old → IsDrawn ⟦<PathStart as PartialEq>⟧.eq ⟦<Place as PartialEq>⟧.eq ⟦<PathClass as PartialEq>⟧.eq draw.now.search.now.book.now draw.now.search.now.request.now draw.now.search.now.residual.now (B.bound draw.now.search.now.bounds.now) draw.now.search.now.limit draw.now.wanted seen drawn.new) }
{
    order_laws();
    if !is_full(drawn.kept.as_slice(), draw.wanted) {
        return Ok(());
    }
    let limit = cut(&mut drawn.kept, draw.wanted, drawn.limit);
    if is_same(limit, drawn.limit) {
        return Ok(());
    }
    let narrowed = MoveSearch {
        book: draw.search.book,
        request: draw.search.request,
        residual: draw.search.residual,
        bounds: draw.search.bounds,
        limit,
    };
    let hopes = hopes_of(alloc, &narrowed, draw.leads)?;
    drawn.limit = limit;
    drawn.sunk = Some(hopes);
    Ok(())
}

/// Whether it is the same limit.
fn is_same(one: Option<u128>, other: Option<u128>) -> bool
    ensures { IsTrue result → one ≡ other }
{
    match (one, other) {
        (Some(one), Some(other)) => one == other,
        (None, None) => true,
        _ => false,
    }
}
