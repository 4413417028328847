//! The moves of residuals, with offers that are built anew and with those of a store.
ghost use Rattle.fare_law.specs.Limits.{IsRequest};

use crate::cases::{Case, book_of, request_of};
use crate::desks::store_of;
use fare_book::Book;
use fare_component::{OfferSource, Plain};
use fare_law::{Mem, NoGate, Request, Role};
use node_publish::{NodeStore, StoreSource};
use residual_keys::{Chosen, Next, moves, read_residual, residual_text};
use search_core::request_ok;
use std::alloc::Global;
use std::test::Fail;

/// What is said of a move: its price, its role, the one letter of its fare's basis, and the text of the residual that it leaves, empty
/// where the journey is complete.
type Said = (u64, Role, u8, &'static str);

/// A name, a case, the text of a residual, and its moves in order.
type Row = (&'static str, Case, &'static str, &'static [Said]);

const OPEN: &str = "1 0 NYC - 1 2 LON>NYC:1:22341:-:-:-:14:0:QX:0 1:0:QX";

const ALONE: &str = "1 0 NYC - 1 2 - 1:0:QX";

const ROWS: [Row; 4] = [
    (
        "where a search begins",
        Case::RoundTrip,
        "0 0 LON - 0 1 - 0:0:-",
        &[
            (20000, Role::Opens, b'R', OPEN),
            (25000, Role::Alone, b'Y', ALONE),
            (25000, Role::Opens, b'Y', OPEN),
        ],
    ),
    (
        "a unit open",
        Case::RoundTrip,
        OPEN,
        &[
            (20000, Role::Closes, b'R', ""),
            (25000, Role::Closes, b'Y', ""),
        ],
    ),
    (
        "no unit open",
        Case::RoundTrip,
        ALONE,
        &[(24000, Role::Alone, b'Z', "")],
    ),
    (
        "no fare back by itself",
        Case::TwoCarriers,
        "1 0 NYC - 3 5 - 1:0:EX",
        &[],
    ),
];

/// Whether a move is as it is said.
fn is_as_said(alloc: Global, chosen: &Chosen, said: Said) -> Result<bool, Mem> {
    let (price, role, letter, next) = said;
    let is_next = match &chosen.next {
        Next::Done => next.is_empty(),
        Next::At(residual) => residual_text(alloc, residual)?.as_slice() == next.as_bytes(),
    };
    let made = &chosen.mv;
    Ok(
        is_next
            && chosen.price == price
            && made.role == role
            && made.slot == 0
            && made.basis.0.as_slice() == [letter].as_slice(),
    )
}

/// Whether the moves are as they are said, in their order.
fn are_as_said(alloc: Global, found: &[Chosen], said: &[Said]) -> Result<bool, Mem> {
    if found.len() != said.len() {
        return Ok(false);
    }
    for (chosen, said) in found.iter().zip(said.iter()) {
        if !is_as_said(alloc, chosen, *said)? {
            return Ok(false);
        }
    }
    Ok(true)
}

/// Whether the residual of a row has its moves, in their order.
fn are_moves<O: OfferSource>(
    alloc: Global,
    book: &Book,
    request: &Request,
    row: &Row,
    offers: &mut O,
) -> Result<bool, Mem>
    requires { IsRequest request.now }
{
    let Some(residual) = read_residual(row.2.as_bytes()) else {
        return Ok(false);
    };
    let found = moves(alloc, book, request, &residual, offers)?;
    are_as_said(alloc, found.as_slice(), row.3)
}

/// The same by a store.
fn are_moves_by(
    alloc: Global,
    book: &Book,
    request: &Request,
    row: &Row,
    store: &NodeStore,
) -> Result<bool, Mem>
    requires { IsRequest request.now }
{
    let mut source = StoreSource {
        store,
        pass: store.pass(alloc)?,
        gate: &NoGate,
        desk: 1,
    };
    are_moves(alloc, book, request, row, &mut source)
}

/// Whether they are its moves with offers that are built anew, with those of a store that has none yet, and with those that it
/// then has.
fn are_moves_thrice(
    alloc: Global,
    book: &Book,
    request: &Request,
    row: &Row,
    store: &NodeStore,
) -> Result<[bool; 3], Mem>
    requires { IsRequest request.now }
{
    Ok([
        are_moves(alloc, book, request, row, &mut Plain)?,
        are_moves_by(alloc, book, request, row, store)?,
        are_moves_by(alloc, book, request, row, store)?,
    ])
}

/// The same by a store of its own.
fn tried(alloc: Global, row: &Row) -> Result<[bool; 3], Fail> {
    let book = book_of(alloc, &row.1)?;
    let request = request_of(&row.1);
    if request_ok(&book, &request).is_err() {
        return Err(Fail::new("no request"));
    }
    let store = store_of(alloc, 64)?;
    Ok(are_moves_thrice(alloc, &book, &request, row, &store)?)
}

/// Which row has other moves, if one has.
fn wrong(alloc: Global, rows: &[Row]) -> Result<Option<&'static str>, Fail> {
    for row in rows {
        if tried(alloc, row)? != [true; 3] {
            return Ok(Some(row.0));
        }
    }
    Ok(None)
}

#[test]
fn gives_moves_by_code(rt: HostRuntime) -> Result<(), Fail> {
    assert_eq!(rt; wrong(rt.alloc(), &ROWS)?, None);
    Ok(())
}
