//! The tails that a path may end with: fewer, where the limit of moves has sunk.
ghost use Rattle.std.specs.Prelude.{◌≡◌, ◌⊎◌, ℕ, List as Items, IfOk, OnOk};
ghost use Rattle.cheap_moves.specs.Hopes.{marked};
ghost use Rattle.cheap_moves.specs.Sought.{AreEnding};
ghost use Rattle.cheap_moves.specs.Tails.{AreTailsOver};
ghost use Rattle.fare_law.specs.declared.requests.Slice.{Slice as RequestSlice};

use crate::hopes::{Hopes, schedule_of};
use fare_book::Book;
use fare_law::{List, Mem, Place};
use flight_paths::{Path, tails_to};
use std::alloc::Global;

/// Tails by their numbers, and at how many places they are wanted to end.
#[derive(Drop)]
pub struct Endings {
    pub numbers: List<usize>,
    places: usize,
}

/// The tails that end where moves within the limit of the hopes do.
pub fn endings_of(alloc: Global, book: &Book, tails: &[Path], hopes: &Hopes) -> Result<Endings, Mem>
    ensures { IfOk result (λ e. (slices : Items RequestSlice) (i : ℕ) → AreTailsOver book.now slices i tails.now → AreEnding book.now slices i (marked ⟦<Place as PartialEq>⟧.eq hopes.now.ends) tails.now e.numbers) }
{
    let numbers = tails_to(alloc, schedule_of(book), tails, hopes)?;
    Ok(Endings {
        numbers,
        places: hopes.ends.len(),
    })
}

/// Leaves the tails that end where moves within the limit of the hopes do, if these are fewer places than before.
pub fn narrow(
    alloc: Global,
    endings: &mut Endings,
    book: &Book,
    tails: &[Path],
    hopes: &Hopes,
) -> Result<(), Mem>
    ensures { OnOk result ((endings.new ≡ endings.old) ⊎ ((slices : Items RequestSlice) (i : ℕ) → AreTailsOver book.now slices i tails.now → AreEnding book.now slices i (marked ⟦<Place as PartialEq>⟧.eq hopes.now.ends) tails.now endings.new.numbers)) }
{
    if hopes.ends.len() < endings.places {
        *endings = endings_of(alloc, book, tails, hopes)?;
    }
    Ok(())
}
