//! The search of a case that bytes spell.
ghost use Rattle.std.specs.Int.{IsInRange};
ghost use Rattle.std.specs.Prelude.{◌≡◌, ◌≤◌, length, IfOk, IfSome};
ghost use Rattle.lowfare.specs.Inputs.{most_bytes};
ghost use Rattle.lowfare.specs.Answered.{ComesTo};

use crate::cases::search_case;
use fare_component::Plain;
use fare_law::{List, Mem};
use search_core::{Answer, SearchFault, search};
use std::alloc::Global;
use whole_case::{LoadFault, Refusal, SearchCase, spelled_requests_are_right};

/// What the search of a case comes to.
#[derive(Drop)]
pub(crate) enum Searched {
    /// The case, which is within the budget, and its answer.
    Answered { found: SearchCase, answer: Answer },
    /// The case is one of which more residuals are reached than the budget.
    Beyond,
    /// The bytes are no case.
    NoCase(Refusal),
}

/// Searches the case that the bytes spell.
pub(crate) fn search_of(
    alloc: Global,
    bytes: List<u8>,
    best: Option<u16>,
    budget: u32,
    at: Option<u32>,
) -> Result<Searched, Mem>
    requires best { IfSome best (IsInRange 1 1000) }
    requires fits { length bytes ≤ most_bytes }
    ensures { IfOk result (ComesTo best budget at bytes) }
{
    let found = match search_case(alloc, bytes, best, at) {
        Ok(found) => found,
        Err(LoadFault::Refused(refusal)) => return Ok(no_case(&refusal)),
        Err(LoadFault::Mem) => return Err(Mem),
    };
    spelled_requests_are_right();
    match search(alloc, &found.book, &found.request, budget, &mut Plain) {
        Ok(answer) => Ok(Searched::Answered { found, answer }),
        Err(SearchFault::TooLarge) => Ok(Searched::Beyond),
        Err(SearchFault::BadRequest(_)) => unreachable!(),
        Err(SearchFault::Mem) => Err(Mem),
    }
}

/// The first refusal of bytes that are no case.
fn no_case(refusal: &Refusal) -> Searched
    ensures { result ≡ Searched.NoCase refusal.now }
{
    Searched::NoCase(*refusal)
}
