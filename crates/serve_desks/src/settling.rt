//! After the work: what each teller saw is compared with what was filed.
ghost use Rattle.std.specs.Prelude.{◌≡◌, ◌≤◌, ◌<◌, ◌+◌, length, slice_set, take, vec_len, IfOk, IfSome, OnOk, Some};
ghost use Rattle.std.specs.Arc.{arc_value};
ghost use Rattle.serve_desks.specs.Served.{AllName, AllServed, IsServed, Names};
ghost use Rattle.serve_desks.specs.Settled.{AllAsked, AreGiven};
ghost use Rattle.serve_desks.specs.Terms.{IsRight};

use crate::beside::{Ended, Filings};
use crate::log::Entry;
use crate::minutes::House;
use crate::serving::Served;
use crate::{Reply, Teller};
use fare_law::Mem;
use std::alloc::Global;

/// The tellers, and the replies that they gave, each at its line of the script: those that name versions of the
/// clerk's history.
#[derive(Drop)]
pub(crate) struct Settled<T: Teller> {
    pub tellers: Vec<T>,
    pub given: Vec<Option<Entry>>,
}

/// Settles each teller. `Mem` where one of them didn't come to its end.
pub(crate) fn settle_all<T: Teller, H: House>(
    alloc: Global,
    mut ended: Vec<Ended<T>>,
    lines: usize,
    filings: &Filings,
) -> Result<Settled<T>, Mem>
    requires house { filings.now.receipt.house ≡ H.name }
    requires ended { AllServed T.house T.terms T.seen T.wants T.right H.name H.terms ended.items }
    ensures tellers { IfOk result (λ s. AllAsked T.terms T.wants H.terms s.tellers.items) }
    ensures given { IfOk result (λ s. AreGiven T.right H.terms filings.now.receipt.entries s.given.items) }
    ensures lines { IfOk result (λ s. vec_len s.given ≡ lines) }
    ensures count { IfOk result (λ s. vec_len s.tellers ≡ vec_len ended) }
{
    if ended.iter().any(|one| one.is_err()) {
        return Err(Mem);
    }
    let mut settled = Settled {
        tellers: Vec::new(alloc),
        given: no_replies::<T, H>(alloc, lines, filings)?,
    };
    while let Some(one) = ended.pop() {
        add_settled::<T, H>(alloc, one?, &mut settled, filings)?;
    }
    Ok(settled)
}

/// Settles a teller, and adds it with the replies that stand.
fn add_settled<T: Teller, H: House>(
    alloc: Global,
    served: Served<T>,
    settled: &mut Settled<T>,
    filings: &Filings,
) -> Result<(), Mem>
    requires house { filings.now.receipt.house ≡ H.name }
    requires served { IsServed T.house T.terms T.seen T.wants T.right H.name H.terms served }
    requires tellers { AllAsked T.terms T.wants H.terms settled.old.tellers.items }
    requires given { AreGiven T.right H.terms filings.now.receipt.entries settled.old.given.items }
    ensures tellers { OnOk result (AllAsked T.terms T.wants H.terms settled.new.tellers.items) }
    ensures given { OnOk result (AreGiven T.right H.terms filings.now.receipt.entries settled.new.given.items) }
    ensures lines { OnOk result (vec_len settled.new.given ≡ vec_len settled.old.given) }
    ensures count { OnOk result (vec_len settled.new.tellers ≡ vec_len settled.old.tellers + 1) }
{
    let (teller, replies) = settle_one::<T, H>(alloc, served, filings)?;
    if let Some(replies) = replies {
        place_all::<T, H>(replies, &mut settled.given, filings);
    }
    settled.tellers.push(teller)?;
    Ok(())
}

/// A line each, with no reply yet.
fn no_replies<T: Teller, H: House>(
    alloc: Global,
    lines: usize,
    filings: &Filings,
) -> Result<Vec<Option<Entry>>, Mem>
    ensures given { IfOk result (λ v. AreGiven T.right H.terms filings.now.receipt.entries v.items) }
    ensures lines { IfOk result (λ v. vec_len v ≡ lines) }
{
    let _filings = filings;
    let mut given = Vec::new(alloc);
    for _ in 0..lines {
        given.push(None)?;
    }
    Ok(given)
}

/// Learns the receipt, and looks once more. Where the teller then has the clerk's number, all that it had seen is a
/// beginning of the clerk's history, and its replies stand; else it has none.
fn settle_one<T: Teller, H: House>(
    alloc: Global,
    served: Served<T>,
    filings: &Filings,
) -> Result<(T, Option<Vec<Entry>>), Mem>
    requires house { filings.now.receipt.house ≡ H.name }
    requires served { IsServed T.house T.terms T.seen T.wants T.right H.name H.terms served }
    ensures teller { IfOk result (λ t. (T.terms t.0 ≡ H.terms) × (T.wants t.0 ≡ 0)) }
    ensures right { IfOk result (λ t. IfSome t.1 (λ v. AllName T.right H.terms filings.now.receipt.entries v.items)) }
{
    let Served {
        mut teller,
        replies,
    } = served;
    let last = filings.receipt.number();
    let number = teller.settle(alloc, &filings.receipt)?;
    if number == last {
        return Ok((teller, Some(replies)));
    }
    Ok((teller, None))
}

/// Puts each reply at its line.
fn place_all<T: Teller, H: House>(
    mut replies: Vec<Entry>,
    given: &mut Vec<Option<Entry>>,
    filings: &Filings,
)
    requires replies { AllName T.right H.terms filings.now.receipt.entries replies.items }
    requires given { AreGiven T.right H.terms filings.now.receipt.entries given.old.items }
    ensures given { AreGiven T.right H.terms filings.now.receipt.entries given.new.items }
    ensures lines { vec_len given.new ≡ vec_len given.old }
{
    let _filings = filings;
    while let Some(entry) = replies.pop() {
        let line = entry.line;
        if line < given.len() {
            place(given, line, entry);
        }
    }
}

/// Puts a reply at a line.
fn place(given: &mut Vec<Option<Entry>>, line: usize, entry: Entry)
    requires { line < vec_len given.old }
    ensures items { given.new.items ≡ slice_set given.old.items line (Some entry) }
    ensures lines { vec_len given.new ≡ vec_len given.old }
{
    given[line] = Some(entry);
}

/// The reply to a search: the one that was given, where it is no older than `floor`, or else a new one of the last
/// book.
pub(crate) fn reply_to<T: Teller, H: House>(
    alloc: Global,
    teller: &mut T,
    given: Option<Entry>,
    request: u32,
    floor: u32,
    filings: &Filings,
) -> Result<Reply, Mem>
    requires request { (0 < request) × (request ≤ length H.terms.asks) }
    requires terms { T.terms teller.old ≡ H.terms }
    requires ample { T.wants teller.old ≡ 0 }
    requires timetable { (arc_value filings.now.book).timetable ≡ H.terms.timetable }
    requires book { (arc_value filings.now.book).entries ≡ filings.now.receipt.entries }
    requires given { IfSome given (Names T.right H.terms filings.now.receipt.entries) }
    requires floor { floor ≤ length filings.now.receipt.entries }
    ensures terms { T.terms teller.new ≡ H.terms }
    ensures ample { OnOk result (T.wants teller.new ≡ 0) }
    ensures number { IfOk result (λ r. (floor ≤ r.number) × (r.number ≤ length filings.now.receipt.entries)) }
    ensures right { IfOk result (λ r. IsRight T.right H.terms request (take r.number filings.now.receipt.entries) r.body) }
{
    if let Some(entry) = given {
        if entry.request == request && entry.reply.number >= floor {
            return Ok(entry.reply);
        }
    }
    teller.answer_from(alloc, &filings.book, request)
}
