//! Tellers at work while the clerk files.
ghost use Rattle.std.specs.Prelude.{◌≡◌, ◌<◌, length, map, All, IfOk, vec_len};
ghost use Rattle.std.specs.Arc.{arc_value};
ghost use Rattle.fare_law.specs.FilingLimits.{IsFiling};
ghost use Rattle.serve_desks.specs.Came.{CameOf};
ghost use Rattle.serve_desks.specs.Lines.{AsksWithin};
ghost use Rattle.serve_desks.specs.Served.{AllServed, IsServed};
ghost use denote.Param.Send.{IsSend, IsSync};

use crate::filing::file_all;
use crate::minutes::{Board, House};
use crate::serving::{Served, serve};
use crate::{Filed, Teller, Workload};
use fare_book::Book;
use fare_law::{Filing, Gate, List, Mem};
use fare_versions::{Clerk, Receipt};
use script_text::Script;
use std::marker::PhantomData;
use std::sync::{Arc, Wait};
use std::thread::{Threads, join, map_vec};

/// A teller with its place among the tellers, counted from 0, and how many there are.
#[derive(Drop)]
pub(crate) struct Job<T: Teller, H: House> {
    pub teller: T,
    pub place: usize,
    pub tellers: usize,
    pub of: PhantomData<H>,
    pub ghost some: { 0 < tellers },
    pub ghost house: { T.house teller ≡ H.name },
    pub ghost terms: { T.terms teller ≡ H.terms },
    pub ghost ample: { T.wants teller ≡ 0 },
}

/// What came of the filing.
#[derive(Drop)]
pub(crate) struct Filings {
    /// The version that was the last before.
    pub opening: u32,
    /// How each was judged.
    pub filed: List<Filed>,
    /// A receipt for the last book, and that book.
    pub receipt: Receipt,
    pub book: Arc<Book>,
}

/// What came of a teller's work: `Mem` where it wanted memory, or where the run stopped before its end.
pub(crate) type Ended<T> = Result<Served<T>, Mem>;

/// The tellers work through the script while the clerk files. Where no thread can be made the filing is done first, so
/// that no teller waits for it.
pub(crate) fn run_both<T, H, G, R>(
    rt: &R,
    clerk: &mut Clerk,
    jobs: Vec<Job<T, H>>,
    work: &Workload,
    board: &Board<H>,
    gate: &G,
) -> Result<(Filings, Vec<Ended<T>>), Mem>
where
    T: Teller + Send,
    H: House + Send + Sync,
    G: Gate + Sync,
    R: Threads + Wait + Sync,
    requires house { clerk.old.house ≡ H.name }
    requires limits { All (λ f. IsFiling (arc_value f)) work.now.later }
    requires script { All (AsksWithin (length H.terms.asks)) work.now.script.lines }
    ensures filed { IfOk result (λ t. CameOf H.name clerk.old.book (map arc_value work.now.later) t.0) }
    ensures served { IfOk result (λ t. AllServed T.house T.terms T.seen T.wants T.right H.name H.terms t.1.items) }
    ensures count { IfOk result (λ t. vec_len t.1 ≡ vec_len jobs) }
{
    let (script, later) = (&work.script, work.later.as_slice());
    let (served, filings) = join(
        rt,
        move || -> Result<Vec<Ended<T>>, Mem>
            requires { All (AsksWithin (length H.terms.asks)) script.now.lines }
            ensures { IfOk result (λ v. AllServed T.house T.terms T.seen T.wants T.right H.name H.terms v.items × (vec_len v ≡ vec_len jobs)) }
        { serve_all::<T, H, G, R>(rt, jobs, script, board, gate) },
        move || -> Result<Filings, Mem>
            requires { (clerk.now.house ≡ H.name) × All (λ f. IsFiling (arc_value f)) later.now }
            ensures { IfOk result (λ f. CameOf H.name clerk.entry.now.book (map arc_value later.entry.now) f) }
        { filed_by::<H, G, R>(rt, clerk, later, board, gate) },
    );
    Ok((filings?, served?))
}

/// Each teller at work, in a thread of its own. Where there is no memory for that the run stops.
fn serve_all<T, H, G, R>(
    rt: &R,
    jobs: Vec<Job<T, H>>,
    script: &Script,
    board: &Board<H>,
    gate: &G,
) -> Result<Vec<Ended<T>>, Mem>
where
    T: Teller + Send,
    H: House + Send + Sync,
    G: Gate + Sync,
    R: Threads + Wait + Sync,
    requires { All (AsksWithin (length H.terms.asks)) script.now.lines }
    ensures served { IfOk result (λ v. AllServed T.house T.terms T.seen T.wants T.right H.name H.terms v.items) }
    ensures count { IfOk result (λ v. vec_len v ≡ vec_len jobs) }
{
    let one = |job: Job<T, H>| -> Ended<T>
        requires { All (AsksWithin (length H.terms.asks)) script.now.lines }
        ensures { IfOk result (IsServed T.house T.terms T.seen T.wants T.right H.name H.terms) }
    { serve::<T, H, G, R>(rt, job, script, board, gate) };
    let ended = map_vec(rt, jobs, &one);
    if ended.is_err() {
        board.stop(rt);
    }
    Ok(ended?)
}

/// The number of the clerk's last version.
fn last_number(clerk: &Clerk) -> u32
    ensures { result ≡ length clerk.now.book.entries }
{
    clerk.book().number()
}

/// The clerk at work, and what came of it. Where memory is wanting the run stops.
fn filed_by<H: House, G: Gate, R: Wait>(
    rt: &R,
    clerk: &mut Clerk,
    later: &[Arc<Filing>],
    board: &Board<H>,
    gate: &G,
) -> Result<Filings, Mem>
    requires house { clerk.old.house ≡ H.name }
    requires limits { All (λ f. IsFiling (arc_value f)) later.now }
    ensures { IfOk result (λ f. CameOf H.name clerk.old.book (map arc_value later.now) f) }
{
    let filings = filings_of::<H, G, R>(rt, clerk, later, board, gate);
    if filings.is_err() {
        board.stop(rt);
    }
    filings
}

/// The same, where the run doesn't stop for it.
fn filings_of<H: House, G: Gate, R: Wait>(
    rt: &R,
    clerk: &mut Clerk,
    later: &[Arc<Filing>],
    board: &Board<H>,
    gate: &G,
) -> Result<Filings, Mem>
    requires house { clerk.old.house ≡ H.name }
    requires limits { All (λ f. IsFiling (arc_value f)) later.now }
    ensures { IfOk result (λ f. CameOf H.name clerk.old.book (map arc_value later.now) f) }
{
    let opening = last_number(clerk);
    let filed = file_all::<H, G, R>(rt, clerk, later, board, gate)?;
    let receipt = clerk.tell();
    let book = Arc::try_clone(clerk.book())?;
    Ok(Filings {
        opening,
        filed,
        receipt,
        book,
    })
}
