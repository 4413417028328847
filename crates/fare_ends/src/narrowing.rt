//! The tails that end where a fare is filed from a place or to it.
ghost use Rattle.std.specs.Prelude.{◌≡◌, ◌<◌, ℕ, false, length, slice_get, IfOk, List as Items, unwrap_or};
ghost use Rattle.fare_ends.specs.Tails.{AreEnds, AreNumbersTo, AreTailsFrom, AreTailsOver, AreWanted};
ghost use Rattle.fare_law.specs.declared.requests.Request.{Request as Asked};
ghost use Rattle.fare_law.specs.Lists.{Each};
ghost use Rattle.flight_paths.specs.declared.positions.Path.{Path as PathData};
ghost use Rattle.flight_paths.specs.Heads.{chosen};

use crate::filed::has_fare;
use crate::tail_ends::TailEnds;
use fare_book::Book;
use fare_law::{List, Mem, Place};
use std::alloc::Global;

/// The numbers of the tails that end where a fare is filed from a place or to it.
pub fn fare_tails(
    alloc: Global,
    book: &Book,
    from: Place,
    ends: &TailEnds,
) -> Result<List<usize>, Mem>
    ensures within { IfOk result (λ numbers. Each (λ n. n < length ends.now.of.items) numbers) }
    ensures tails { IfOk result (λ numbers. (q : Asked) (slice : ℕ) (tails : Items PathData) → AreTailsOver book.now q.slices slice tails → AreEnds book.now tails ends.now → AreTailsFrom book.now q from slice (chosen tails numbers)) }
{
    let wanted = wanted_ends(alloc, book, from, ends.places.as_slice())?;
    let numbers = numbers_to(alloc, wanted.as_slice(), ends.of.as_slice())?;
    Ok(fitted(numbers))
}

/// The same numbers in no more room than they take, since a place keeps them for a whole search.
fn fitted(numbers: List<usize>) -> List<usize>
    ensures { result ≡ numbers }
{
    let mut numbers = numbers.into_vec();
    numbers.shrink_to_fit();
    List::from_vec(numbers)
}

/// For each of some ends whether a fare is filed from a place to it or back.
fn wanted_ends(alloc: Global, book: &Book, from: Place, ends: &[Place]) -> Result<Vec<bool>, Mem>
    ensures { IfOk result (λ wanted. AreWanted book.now from ends.now wanted.items) }
{
    let mut wanted = Vec::with_capacity(alloc, ends.len())?;
    for end in ends {
        wanted.push(has_fare(book, from, *end))?;
    }
    Ok(wanted)
}

/// The numbers of the tails whose ends, of these numbers, are wanted, in the order of the tails.
fn numbers_to(alloc: Global, wanted: &[bool], ends: &[usize]) -> Result<List<usize>, Mem>
    ensures { IfOk result (AreNumbersTo wanted.now ends.now) }
{
    let mut numbers = List::from_vec(Vec::with_capacity(alloc, ends.len())?);
    for (number, end) in ends.iter().enumerate() {
        if is_wanted(wanted, *end) {
            numbers.push(number)?;
        }
    }
    Ok(numbers)
}

/// Whether the end of this number is wanted.
fn is_wanted(wanted: &[bool], end: usize) -> bool
    ensures { result ≡ unwrap_or (slice_get wanted.now end) false }
{
    wanted.get(end).copied().unwrap_or(false)
}
