//! Runs by tellers that want memory, so that the run stops, no desk waits any longer and the answer is `Mem`, and by tellers that
//! make up a filing, so that none of their replies stands.
ghost use Rattle.std.specs.Prelude.{◌≡◌, ◌<◌, length, IfOk};
ghost use Rattle.fare_law.specs.Lists.{Each, IsPrefix};
ghost use Rattle.fare_versions.specs.Seen.{HasSeen};
ghost use Rattle.serve_desks.specs.Terms.{IsOf, terms_of};
ghost use Rattle.thread_tests.specs.Invented.{with_invented};

use crate::cases::{Case, house};
use crate::counting::has_come;
use crate::filings::NO_FARE;
use crate::workloads::{looked, too_large, workload};
use fare_book::Book;
use fare_law::{Gate, List, Mem};
use fare_versions::{Clerk, Receipt, Watch};
use serve_desks::{Ask, Body, Filed, Log, Reply, Teller, drive};
use std::alloc::Global;
use std::sync::atomic::{AtomicU64, Ordering};
use std::sync::{Arc, Wait};
use std::test::Fail;
use std::thread::Threads;

/// Tells that each search is too large, with the version that it sees, as often as it says, and wants memory for the next question.
/// Once it has settled it counts one filing that the clerk never filed, and answers no more from what it sees.
#[derive(Drop)]
struct Inventor<'a> {
    watch: Watch,
    asks: &'a List<Ask>,
    /// How many questions it still answers.
    left: u32,
    has_invented: bool,
    wants: u32,
}

impl<'a> Teller for Inventor<'a> {
    ghost use Rattle.std.specs.Prelude.{◌≡◌};
    ghost use Rattle.serve_desks.specs.declared.log.Body.TheVariants.{TooLarge};
    ghost use Rattle.thread_tests.specs.Invented.{with_invented};

    ghost house = { λ i. i.watch.house };

    ghost seen = { λ i. with_invented i.has_invented i.watch.book.entries };

    ghost told = { λ i. i.watch.told };

    ghost terms = { λ i. record { asks = i.asks.now; timetable = i.watch.book.timetable } };

    ghost wants = { λ i. i.wants };

    ghost right = { λ ask timetable filings body. body ≡ TooLarge };

    fn answer(&mut self, _alloc: Global, request: u32) -> Result<Reply, Mem> {
        let _ask = &self.asks.as_slice()[request as usize - 1];
        if self.has_invented || self.left == 0 {
            self.wants += 1;
            return Err(Mem);
        }
        self.left -= 1;
        let (number, wants) = looked(&mut self.watch, self.wants);
        self.wants = wants;
        Ok(too_large(number?))
    }

    fn answer_from(
        &mut self,
        _alloc: Global,
        book: &Arc<Book>,
        request: u32,
    ) -> Result<Reply, Mem> {
        let _ask = &self.asks.as_slice()[request as usize - 1];
        Ok(too_large(book.number()))
    }

    fn learn(&mut self, receipt: &Receipt) {
        self.watch.learn(receipt);
    }

    fn settle(&mut self, _alloc: Global, receipt: &Receipt) -> Result<u32, Mem> {
        match self.invent(receipt) {
            Ok(number) => Ok(number),
            Err(_) => {
                self.wants += 1;
                Err(Mem)
            }
        }
    }
}

impl<'a> Inventor<'a> {
    /// Learns the receipt and looks, and counts one filing more than it then sees. It does so once.
    fn invent(&mut self, receipt: &Receipt) -> Result<u32, Mem>
        requires { receipt.now.house ≡ self.old.watch.house }
        ensures house { self.new.watch.house ≡ self.old.watch.house }
        ensures asks { self.new.asks.now ≡ self.old.asks.now }
        ensures timetable { self.new.watch.book.timetable ≡ self.old.watch.book.timetable }
        ensures wants { self.new.wants ≡ self.old.wants }
        ensures told { IsPrefix self.old.watch.told self.new.watch.told × IsPrefix receipt.now.entries self.new.watch.told }
        ensures seen { IsPrefix (with_invented self.old.has_invented self.old.watch.book.entries) (with_invented self.new.has_invented self.new.watch.book.entries) }
        ensures number { IfOk result (λ n. (n ≡ length (with_invented self.new.has_invented self.new.watch.book.entries)) × IsPrefix receipt.now.entries (with_invented self.new.has_invented self.new.watch.book.entries)) }
    {
        self.watch.learn(receipt);
        if self.has_invented {
            return Err(Mem);
        }
        let number = self.watch.look()?.number();
        self.has_invented = true;
        Ok(number + 1)
    }
}

/// Holds the clerk until the first desk was asked so many times, for so many turns at most, and counts what passed. Where both desks
/// search at once, neither asks on before the other was asked: the first one once, the second one as often as the first one is.
#[derive(Drop)]
struct Holding {
    wanted: u64,
    at_once: bool,
    asked_one: AtomicU64,
    asked_two: AtomicU64,
    filed: AtomicU64,
    given_up: AtomicU64,
}

impl Holding {
    fn until(wanted: u64, at_once: bool) -> Holding {
        Holding {
            wanted,
            at_once,
            asked_one: AtomicU64::new(0),
            asked_two: AtomicU64::new(0),
            filed: AtomicU64::new(0),
            given_up: AtomicU64::new(0),
        }
    }

    /// How often each desk was asked, how many filings passed, and how often the clerk was held for too long.
    fn counts(&self) -> [u64; 4] {
        [
            self.asked_one.load(Ordering::SeqCst),
            self.asked_two.load(Ordering::SeqCst),
            self.filed.load(Ordering::SeqCst),
            self.given_up.load(Ordering::SeqCst),
        ]
    }
}

impl Gate for Holding {
    fn pass(&self, desk: u32) {
        if desk > 0 {
            return;
        }
        self.filed.fetch_add(1, Ordering::SeqCst);
        if !has_come(&self.asked_one, self.wanted) {
            self.given_up.fetch_add(1, Ordering::SeqCst);
        }
    }

    fn done(&self, desk: u32) {
        if desk == 1 {
            self.asked_one.fetch_add(1, Ordering::SeqCst);
            if self.at_once && self.asked_one.load(Ordering::SeqCst) < self.wanted {
                has_come(&self.asked_two, 1);
            }
        } else {
            self.asked_two.fetch_add(1, Ordering::SeqCst);
            if self.at_once {
                has_come(&self.asked_one, self.wanted);
            }
        }
    }
}

/// A teller for each of two watches of the clerk; that of the first desk answers so many questions.
fn inventors<'a>(
    alloc: Global,
    clerk: &Clerk,
    watches: (Watch, Watch),
    asks: &'a List<Ask>,
    answered: u32,
) -> Result<List<Inventor<'a>>, Mem>
    requires { HasSeen clerk.now watches.0 × HasSeen clerk.now watches.1 }
    ensures tellers { IfOk result (Each (IsOf (λ i. i.watch.house) (λ i. record { asks = i.asks.now; timetable = i.watch.book.timetable }) (λ i. i.wants) clerk.now.house (terms_of asks.now clerk.now.book))) }
    ensures some { IfOk result (λ l. 0 < length l) }
{
    let (one, two) = watches;
    let one = inventor_of(clerk, one, asks, answered);
    let two = inventor_of(clerk, two, asks, 99);
    Ok(List::from_vec(vec![in alloc; one, two]?))
}

/// The teller of a watch of the clerk.
fn inventor_of<'a>(clerk: &Clerk, watch: Watch, asks: &'a List<Ask>, left: u32) -> Inventor<'a>
    requires { HasSeen clerk.now watch }
    ensures { IsOf (λ i. i.watch.house) (λ i. record { asks = i.asks.now; timetable = i.watch.book.timetable }) (λ i. i.wants) clerk.now.house (terms_of asks.now clerk.now.book) result }
{
    let _clerk = clerk;
    Inventor {
        watch,
        asks,
        left,
        has_invented: false,
        wants: 0,
    }
}

/// A run of two desks: its name, its script, how many questions the first teller answers, whether both desks search at once, and how
/// often each is asked.
type Run = (&'static str, [&'static str; 6], u32, bool, [u64; 2]);

/// The first desk searches three times. The second waits for the first filing and searches.
const ONE_WAITS: [&str; 6] = [
    "desks 2",
    "1 search 1",
    "1 search 1",
    "1 search 1",
    "2 wait 1",
    "2 search 1",
];

/// The first desk searches three times, the second twice.
const BOTH_SEARCH: [&str; 6] = [
    "desks 2",
    "1 search 1",
    "1 search 1",
    "1 search 1",
    "2 search 1",
    "2 search 1",
];

/// The first desk searches; the second waits for the first filing and searches; the first waits for both and searches.
const BOTH_WAIT: [&str; 6] = [
    "desks 2",
    "1 search 1",
    "2 wait 1",
    "2 search 1",
    "1 wait 2",
    "1 search 1",
];

const RUNS: [Run; 3] = [
    ("at the first question", ONE_WAITS, 0, false, [1, 0]),
    ("at the second question", ONE_WAITS, 1, false, [2, 0]),
    (
        "at the second question of one of two",
        BOTH_SEARCH,
        1,
        true,
        [2, 1],
    ),
];

/// The log of a script's run by this gate, or `None` for want of memory. The first teller answers so many questions.
fn run_one<R: Threads + Wait + Sync>(
    rt: &R,
    alloc: Global,
    script: &[&str],
    answered: u32,
    gate: &Holding,
) -> Result<Option<Log>, Fail> {
    let work = workload(alloc, script)?;
    let (clerk, one, two) = house(rt, alloc, &Case::NoFare)?;
    match inventors(alloc, &clerk, (one, two), &work.asks, answered) {
        Ok(tellers) => Ok(drive(rt, alloc, clerk, tellers, &work, gate).ok()),
        Err(Mem) => {
            clerk.end(rt);
            Err(Fail::new("no tellers"))
        }
    }
}

/// Whether a run ends for want of memory, one filing passed, and each desk was asked as often as it is to be. The clerk is held until
/// the first desk was asked once more than it answers.
fn is_stopped<R: Threads + Wait + Sync>(rt: &R, alloc: Global, run: &Run) -> Result<bool, Fail> {
    let (_, script, answered, at_once, [one, two]) = *run;
    let gate = Holding::until(u64::from(answered) + 1, at_once);
    let log = run_one(rt, alloc, script.as_slice(), answered, &gate)?;
    Ok(log.is_none() && gate.counts() == [one, two, 1, 0])
}

/// Which run doesn't stop so, if one doesn't.
fn wrong<R: Threads + Wait + Sync>(
    rt: &R,
    alloc: Global,
    runs: &[Run],
) -> Result<Option<&'static str>, Fail> {
    for run in runs {
        if !is_stopped(rt, alloc, run)? {
            return Ok(Some(run.0));
        }
    }
    Ok(None)
}

/// The teller wants memory at its first question, and in other runs at its second. Nothing is filed, though two filings come: the
/// clerk was held at the first, and isn't asked of the second. The other desk waits no longer and isn't asked, or isn't asked again.
#[test]
fn stops_where_a_teller_wants_memory(rt: HostRuntime) -> Result<(), Fail> {
    assert_eq!(rt; wrong(&rt, rt.alloc(), &RUNS)?, None);
    Ok(())
}

const FILED: [Filed; 2] = [Filed::Accepted { number: 1 }, Filed::Refused(NO_FARE)];

/// Whether both filings are judged as they are to be, and all three replies are of the last version.
fn is_anew(log: &Log) -> bool {
    for reply in log.replies.as_slice() {
        if reply.number != 1 || !matches!(&reply.body, Body::TooLarge) {
            return false;
        }
    }
    log.replies.len() == 3 && log.filed.as_slice() == FILED.as_slice()
}

/// Whether the log of such a run is as it is to be, and the clerk filed nothing before the first search was answered.
fn made_anew<R: Threads + Wait + Sync>(rt: &R, alloc: Global) -> Result<bool, Fail> {
    let gate = Holding::until(1, false);
    let log = run_one(rt, alloc, BOTH_WAIT.as_slice(), 99, &gate)?;
    let [_, _, _, given_up] = gate.counts();
    Ok(given_up == 0 && log.is_some_and(|log| is_anew(&log)))
}

/// The first search is answered before anything is filed, and yet each reply is of the last version.
#[test]
fn makes_replies_anew(rt: HostRuntime) -> Result<(), Fail> {
    assert!(rt; made_anew(&rt, rt.alloc())?);
    Ok(())
}
