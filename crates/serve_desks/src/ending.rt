//! The log of a run, made at its end.
ghost use Rattle.std.specs.Prelude.{◌≡◌, ◌≤◌, ◌<◌, ◌+◌, length, replicate, All, IfOk, OnOk, vec_len};
ghost use Rattle.std.specs.Arc.{arc_value};
ghost use Rattle.serve_desks.specs.Judging.{accepted};
ghost use Rattle.serve_desks.specs.Lines.{AsksWithin, IsOfDesks};
ghost use Rattle.serve_desks.specs.Logs.{AreLow, Replies, Takes};
ghost use Rattle.serve_desks.specs.Settled.{AllAsked, AreGiven};

use crate::beside::Filings;
use crate::floors::{floor_of, raise_floor, set_floor, waited_for};
use crate::minutes::House;
use crate::settling::{Settled, reply_to};
use crate::{Reply, Teller};
use fare_law::{List, Mem};
use script_text::{Script, ScriptLine};
use std::alloc::Global;

/// The replies so far, and the least version that each desk's next one may have.
#[derive(Drop)]
struct Replied {
    floors: Vec<u32>,
    replies: List<Reply>,
}

/// The replies to a script, in order.
pub(crate) fn replies_of<T: Teller, H: House>(
    alloc: Global,
    script: &Script,
    filings: &Filings,
    mut settled: Settled<T>,
) -> Result<List<Reply>, Mem>
    requires desks { All (IsOfDesks script.now.desks (length filings.now.filed)) script.now.lines }
    requires asks { All (AsksWithin (length H.terms.asks)) script.now.lines }
    requires counted { length filings.now.receipt.entries ≡ filings.now.opening + accepted filings.now.filed }
    requires book { (arc_value filings.now.book).entries ≡ filings.now.receipt.entries }
    requires timetable { (arc_value filings.now.book).timetable ≡ H.terms.timetable }
    requires some { 0 < vec_len settled.tellers }
    requires tellers { AllAsked T.terms T.wants H.terms settled.tellers.items }
    requires given { AreGiven T.right H.terms filings.now.receipt.entries settled.given.items }
    requires lines { vec_len settled.given ≡ length script.now.lines }
    ensures { IfOk result (Replies T.right H.terms filings.now.opening filings.now.filed filings.now.receipt.entries (replicate script.now.desks filings.now.opening) script.now.lines) }
{
    let _last = filings.receipt.number();
    let floors = Vec::from_elem(alloc, filings.opening, script.desks as usize)?;
    let replies = List::new(alloc);
    let mut replied = Replied { floors, replies };
    let mut number = 0;
    for line in script.lines.as_slice() {
        take_line::<T, H>(alloc, number, *line, filings, &mut settled, &mut replied)?;
        number += 1;
    }
    let Replied { floors: _, replies } = replied;
    Ok(replies)
}

/// Takes one line, with its reply where it asks for one.
fn take_line<T: Teller, H: House>(
    alloc: Global,
    number: usize,
    line: ScriptLine,
    filings: &Filings,
    settled: &mut Settled<T>,
    replied: &mut Replied,
) -> Result<(), Mem>
    requires line { IsOfDesks (length replied.old.floors.items) (length filings.now.filed) line }
    requires ask { AsksWithin (length H.terms.asks) line }
    requires number { number < vec_len settled.old.given }
    requires low { AreLow (length filings.now.receipt.entries) replied.old.floors.items }
    requires counted { length filings.now.receipt.entries ≡ filings.now.opening + accepted filings.now.filed }
    requires book { (arc_value filings.now.book).entries ≡ filings.now.receipt.entries }
    requires timetable { (arc_value filings.now.book).timetable ≡ H.terms.timetable }
    requires some { 0 < vec_len settled.old.tellers }
    requires tellers { AllAsked T.terms T.wants H.terms settled.old.tellers.items }
    requires given { AreGiven T.right H.terms filings.now.receipt.entries settled.old.given.items }
    ensures some { vec_len settled.new.tellers ≡ vec_len settled.old.tellers }
    ensures tellers { OnOk result (AllAsked T.terms T.wants H.terms settled.new.tellers.items) }
    ensures given { AreGiven T.right H.terms filings.now.receipt.entries settled.new.given.items }
    ensures lines { vec_len settled.new.given ≡ vec_len settled.old.given }
    ensures desks { length replied.new.floors.items ≡ length replied.old.floors.items }
    ensures low { OnOk result (AreLow (length filings.now.receipt.entries) replied.new.floors.items) }
    ensures takes { OnOk result (Takes T.right H.terms filings.now.opening filings.now.filed filings.now.receipt.entries line replied.old.floors.items replied.new.floors.items replied.old.replies replied.new.replies) }
{
    let _last = filings.receipt.number();
    match line {
        ScriptLine::Search { desk, request } => {
            let floor = floor_of(replied.floors.as_slice(), desk);
            let given = settled.given[number].take();
            let at = (desk as usize - 1) % settled.tellers.len();
            let teller = &mut settled.tellers[at];
            let reply = reply_to::<T, H>(alloc, teller, given, request, floor, filings)?;
            set_floor(&mut replied.floors, desk, reply.number);
            replied.replies.push(reply)?;
        }
        ScriptLine::Await { desk, count } => {
            let waited = waited_for(filings.opening, filings.filed.as_slice(), count);
            raise_floor(&mut replied.floors, desk, waited);
        }
    }
    Ok(())
}
