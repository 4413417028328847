//! The command `check`: whether the certificate of a case meets the checks, or the first that it fails.
ghost use Rattle.std.specs.Int.{IsInRange};
ghost use Rattle.std.specs.Prelude.{◌≡◌, ◌≤◌, codes, length, IfOk, IfSome};
ghost use Rattle.lowfare.specs.Checked.{no_text};
ghost use Rattle.lowfare.specs.Inputs.{most_bytes};
ghost use Rattle.lowfare.specs.Makes.{IsEnd, Makes};
ghost use Rattle.program_words.specs.declared.commands.Command.TheVariants.{Check};

use crate::Status;
use crate::cases::check_case;
use crate::limits::tell_limits;
use crate::outcomes::{Outcome, refused};
use certificate::yes_is_best;
use certificate_check::{Verdict, check};
use fare_law::{List, Mem};
use std::alloc::Global;
use whole_case::{LoadFault, spelled_requests_are_right};

/// What a check makes of the bytes of its input: whether the certificate of their case meets the checks, the
/// first that it fails with the place, or the first refusal.
pub(crate) fn checked(
    alloc: Global,
    bytes: List<u8>,
    best: Option<u16>,
    at: Option<u32>,
) -> Result<Outcome, Mem>
    requires best { IfSome best (IsInRange 1 1000) }
    requires fits { length bytes ≤ most_bytes }
    ensures makes { IfOk result (λ o. Makes (Check best at) bytes o.status o.text) }
    ensures ends { IfOk result (λ o. IsEnd o.status) }
{
    let found = match check_case(alloc, bytes, best, at) {
        Ok(found) => found,
        Err(LoadFault::Refused(refusal)) => return refused(alloc, &refusal),
        Err(LoadFault::Mem) => return Err(Mem),
    };
    spelled_requests_are_right();
    yes_is_best();
    tell_limits(&found.book, &found.request);
    match check(alloc, &found.book, &found.request, &found.certificate)? {
        Verdict::Yes => yes(alloc),
        Verdict::No { rule, place } => no(alloc, rule, place),
    }
}

/// The certificate meets the checks.
pub fn yes(alloc: Global) -> Result<Outcome, Mem>
    ensures status { IfOk result (λ o. o.status ≡ Status.Done) }
    ensures text { IfOk result (λ o. o.text ≡ codes "yes\n") }
{
    Ok(Outcome {
        status: Status::Done,
        text: List::from_vec(b"yes\n".to_vec(alloc)?),
    })
}

/// The certificate fails a check first at a place.
pub fn no(alloc: Global, rule: u8, place: u32) -> Result<Outcome, Mem>
    ensures status { IfOk result (λ o. o.status ≡ Status.No) }
    ensures text { IfOk result (λ o. o.text ≡ no_text rule place) }
{
    let text = format!(in alloc; "no C{rule} {place}\n")?;
    Ok(Outcome {
        status: Status::No,
        text: List::from_vec(text.into_bytes()),
    })
}
