//! The later filings, filed in turn.
ghost use Rattle.std.specs.Prelude.{◌≡◌, All, IfOk, map};
ghost use Rattle.std.specs.Arc.{arc_value};
ghost use Rattle.fare_law.specs.FilingLimits.{IsFiling};
ghost use Rattle.serve_desks.specs.Judging.{Judged, OneJudged};

use crate::Filed;
use crate::minutes::{Board, House, Slip};
use fare_law::{Filing, Gate, List, Mem};
use fare_versions::{Clerk, FileFault};
use std::alloc::Global;
use std::sync::{Arc, Wait};

/// Files each in turn, after the gate lets it pass, and tells the others how it was judged. `Mem` also where the run
/// stops, and then no more is filed.
pub(crate) fn file_all<H: House, G: Gate, R: Wait>(
    rt: &R,
    clerk: &mut Clerk,
    later: &[Arc<Filing>],
    board: &Board<H>,
    gate: &G,
) -> Result<List<Filed>, Mem>
    requires house { clerk.old.house ≡ H.name }
    requires limits { All (λ f. IsFiling (arc_value f)) later.now }
    ensures house { clerk.new.house ≡ clerk.old.house }
    ensures timetable { clerk.new.book.timetable ≡ clerk.old.book.timetable }
    ensures judged { IfOk result (λ l. Judged clerk.old.book.timetable clerk.old.book.entries (map arc_value later.now) l clerk.new.book.entries) }
{
    let mut filed = List::new(board.alloc);
    for filing in later {
        pass(rt, board, gate)?;
        let (how, slip) = file_one::<H, R>(board.alloc, rt, clerk, filing)?;
        filed.push(how)?;
        board.post(rt, slip)?;
    }
    Ok(filed)
}

/// Waits until the gate lets the next filing pass; `Mem` where the run stops before or meanwhile.
fn pass<H: House, G: Gate, R: Wait>(rt: &R, board: &Board<H>, gate: &G) -> Result<(), Mem> {
    board.go_on(rt)?;
    gate.pass(0);
    board.go_on(rt)
}

/// Files one.
fn file_one<H: House, R: Wait>(
    alloc: Global,
    rt: &R,
    clerk: &mut Clerk,
    filing: &Arc<Filing>,
) -> Result<(Filed, Slip<H>), Mem>
    requires house { clerk.old.house ≡ H.name }
    requires limits { IsFiling (arc_value filing.now) }
    ensures house { clerk.new.house ≡ clerk.old.house }
    ensures timetable { clerk.new.book.timetable ≡ clerk.old.book.timetable }
    ensures judged { IfOk result (λ t. OneJudged clerk.old.book.timetable clerk.old.book.entries (arc_value filing.now) t.0 clerk.new.book.entries) }
{
    match clerk.file(rt, alloc, Arc::try_clone(filing)?) {
        Ok(receipt) => {
            let number = receipt.number();
            Ok((Filed::Accepted { number }, Slip::<H>::accepted(receipt)))
        }
        Err(FileFault::Refused(why)) => Ok((Filed::Refused(why), Slip::<H>::refused())),
        Err(FileFault::Mem) => Err(Mem),
    }
}
