//! A run from its beginning to its log.
ghost use Rattle.std.specs.Prelude.{◌≡◌, ◌<◌, length, All, IfOk, vec_len};
ghost use Rattle.std.specs.Arc.{arc_value};
ghost use Rattle.fare_law.specs.FilingLimits.{IsFiling};
ghost use Rattle.fare_law.specs.Lists.{Each};
ghost use Rattle.script_text.specs.Script.{IsScript};
ghost use Rattle.serve_desks.specs.Logs.{Logged};
ghost use Rattle.serve_desks.specs.Terms.{IsOf, terms_of};

use crate::beside::{Filings, Job, run_both};
use crate::ending::replies_of;
use crate::minutes::{Board, House};
use crate::settling::settle_all;
use crate::workload::lines_fit;
use crate::{Log, Teller, Workload};
use fare_law::{Gate, List, Mem};
use fare_versions::Clerk;
use std::alloc::Global;
use std::marker::{Brand, PhantomData};
use std::sync::Wait;
use std::thread::Threads;

/// Files the later filings in order, each after `gate.pass(0)`, while the tellers work through the script in threads of
/// their own, and then makes the log. With w tellers, desk d is served by the teller at `(d - 1) mod w`, smaller desks
/// first; after each answer `gate.done(d)` is called. The clerk is ended in every case.
///
/// Each teller follows the clerk's history, over its timetable, and is asked what the work says. Where it has seen what
/// isn't of that history, none of its replies stands, and each is made anew from the clerk's last book.
///
/// Where a filing or a teller wants memory the run stops: no teller waits any longer, nothing more is filed or searched
/// but what is under way, and the answer is `Mem`. So no reply is made in the place of one that a teller wanted memory
/// for; that a teller is asked nothing more is a condition of its calls. No clause says that anything is done in several
/// threads, nor that the call returns.
pub fn drive<T, G, R>(
    rt: &R,
    alloc: Global,
    clerk: Clerk,
    tellers: List<T>,
    work: &Workload,
    gate: &G,
) -> Result<Log, Mem>
where
    T: Teller + Send,
    G: Gate + Sync,
    R: Threads + Wait + Sync,
    requires tellers { Each (IsOf T.house T.terms T.wants clerk.house (terms_of work.now.asks clerk.book)) tellers }
    requires some { 0 < length tellers }
    requires later { All (λ f. IsFiling (arc_value f)) work.now.later }
    requires script { IsScript (length work.now.later) (length work.now.asks) work.now.script }
    ensures { IfOk result (Logged T.right clerk.book work.now) }
{
    let mut clerk = clerk;
    let log = logged::<T, Brand, G, R>(rt, alloc, &mut clerk, tellers, work, gate);
    clerk.end(rt);
    log
}

/// The log of a run in a house.
fn logged<T, H, G, R>(
    rt: &R,
    alloc: Global,
    clerk: &mut Clerk,
    tellers: List<T>,
    work: &Workload,
    gate: &G,
) -> Result<Log, Mem>
where
    T: Teller + Send,
    H: House + Send + Sync,
    G: Gate + Sync,
    R: Threads + Wait + Sync,
    requires house { clerk.old.house ≡ H.name }
    requires terms { H.terms ≡ terms_of work.now.asks clerk.old.book }
    requires tellers { Each (IsOf T.house T.terms T.wants H.name H.terms) tellers }
    requires some { 0 < length tellers }
    requires later { All (λ f. IsFiling (arc_value f)) work.now.later }
    requires script { IsScript (length work.now.later) (length work.now.asks) work.now.script }
    ensures { IfOk result (Logged T.right clerk.old.book work.now) }
{
    lines_fit(work);
    let _opening = clerk.book().number();
    let jobs = jobs_of::<T, H>(alloc, tellers)?;
    let board = Board::<H>::new(alloc);
    let (filings, ended) = run_both::<T, H, G, R>(rt, clerk, jobs, work, &board, gate)?;
    let lines = work.script.lines.len();
    let settled = settle_all::<T, H>(alloc, ended, lines, &filings)?;
    let replies = replies_of::<T, H>(alloc, &work.script, &filings, settled)?;
    let Filings { filed, .. } = filings;
    Ok(Log { filed, replies })
}

/// The tellers with their places.
fn jobs_of<T: Teller, H: House>(alloc: Global, tellers: List<T>) -> Result<Vec<Job<T, H>>, Mem>
    requires { Each (IsOf T.house T.terms T.wants H.name H.terms) tellers }
    ensures { IfOk result (λ v. vec_len v ≡ length tellers) }
{
    let count = tellers.len();
    let mut left = tellers.into_vec();
    let mut jobs = Vec::new(alloc);
    while let Some(teller) = left.pop() {
        let place = left.len();
        jobs.push(job_of::<T, H>(teller, place, count))?;
    }
    Ok(jobs)
}

/// A teller at its place.
fn job_of<T: Teller, H: House>(teller: T, place: usize, tellers: usize) -> Job<T, H>
    requires of { IsOf T.house T.terms T.wants H.name H.terms teller }
    requires some { 0 < tellers }
{
    Job {
        teller,
        place,
        tellers,
        of: PhantomData,
    }
}
