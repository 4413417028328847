//! The command `serve`: desks that search by a script while filings come in.
ghost use Rattle.std.specs.Int.{IsInRange};
ghost use Rattle.std.specs.Prelude.{◌≡◌, ◌≤◌, length, None, IfOk, IfSome};
ghost use Rattle.fare_law.specs.FilingLimits.{IsFiling};
ghost use Rattle.fare_law.specs.Lists.{Each};
ghost use Rattle.fare_law.specs.Requests.{judged, known_places};
ghost use Rattle.lowfare.specs.Inputs.{most_bytes};
ghost use Rattle.lowfare.specs.Makes.{IsEnd, Makes};
ghost use Rattle.lowfare.specs.Servings.{TellsServing};
ghost use Rattle.program_words.specs.declared.commands.Command.TheVariants.{Serve};
ghost use Rattle.script_text.specs.Script.{IsScript};

use crate::Status;
use crate::cases::serve_case;
use crate::outcomes::{Outcome, refused};
use crate::workloads::work_of;
use fare_law::{Gate, List, Mem};
use serving::served;
use std::alloc::Global;
use std::sync::Wait;
use std::thread::Threads;
use whole_case::{LoadFault, ServeCase, spelled_asks_are_right};

/// What `serve` makes of the bytes of its input: the history and the replies of a serving run of their case, or the
/// first refusal.
pub(crate) fn case_served<G, R>(
    rt: &R,
    alloc: Global,
    bytes: List<u8>,
    best: Option<u16>,
    budget: u32,
    gate: &G,
) -> Result<Outcome, Mem>
where
    G: Gate + Sync,
    R: Threads + Wait + Sync,
    requires best { IfSome best (IsInRange 1 1000) }
    requires fits { length bytes ≤ most_bytes }
    ensures makes { IfOk result (λ o. Makes (Serve best budget) bytes o.status o.text) }
    ensures ends { IfOk result (λ o. IsEnd o.status) }
{
    let found = match serve_case(alloc, bytes, best) {
        Ok(found) => found,
        Err(LoadFault::Refused(refusal)) => return refused(alloc, &refusal),
        Err(LoadFault::Mem) => return Err(Mem),
    };
    spelled_asks_are_right();
    served_case(rt, alloc, found, budget, gate)
}

/// The text of a serving run of this case.
fn served_case<G, R>(
    rt: &R,
    alloc: Global,
    found: ServeCase,
    budget: u32,
    gate: &G,
) -> Result<Outcome, Mem>
where
    G: Gate + Sync,
    R: Threads + Wait + Sync,
    requires later { Each IsFiling found.later }
    requires script { IsScript (length found.later) (length found.requests) found.script }
    requires asks { Each (λ q. judged (known_places found.book) q ≡ None) found.requests }
    ensures status { IfOk result (λ o. o.status ≡ Status.Done) }
    ensures text { IfOk result (λ o. TellsServing budget found o.text) }
{
    let ServeCase {
        book,
        later,
        requests,
        script,
    } = found;
    let work = work_of(alloc, later, requests, script, budget)?;
    let text = served(rt, alloc, book, &work, gate)?;
    Ok(Outcome {
        status: Status::Done,
        text,
    })
}
