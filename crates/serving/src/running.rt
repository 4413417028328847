//! A serving run.
ghost use Rattle.std.specs.Prelude.{◌≡◌, ◌≤◌, ◌<◌, All, IfOk, length};
ghost use Rattle.std.specs.Arc.{arc_value};
ghost use Rattle.search_desk.specs.Tellers.{AreAllowed};
ghost use Rattle.fare_law.specs.FilingLimits.{IsFiling};
ghost use Rattle.fare_law.specs.Lists.{Each};
ghost use Rattle.fare_versions.specs.Seen.{HasSeen};
ghost use Rattle.script_text.specs.Script.{IsScript};
ghost use Rattle.serve_desks.specs.Terms.{IsOf, terms_of};
ghost use Rattle.serving.specs.Serves.{Serves};

use crate::tellers::tellers_of;
use crate::text::serve_text;
use fare_book::Book;
use fare_law::{Gate, List, Mem};
use fare_versions::{Clerk, Watch, begin};
use node_publish::NodeStore;
use search_desk::DeskTeller;
use serve_desks::{Workload, drive};
use std::alloc::Global;
use std::sync::{Arc, Wait};
use std::thread::Threads;

/// How many cells the one store has.
const CELLS: u32 = 65_536;

/// Files the later filings while desks search as the script says, and gives the text of the run. There are as many desks
/// as the script has, each with a watch of its own where there is room for it, and all with one store of nodes. The
/// requests of the asks are right over the book's timetable.
///
/// No clause says that anything is done in several threads, nor that the call returns.
pub fn served<G, R>(
    rt: &R,
    alloc: Global,
    book: Book,
    work: &Workload,
    gate: &G,
) -> Result<List<u8>, Mem>
where
    G: Gate + Sync,
    R: Threads + Wait + Sync,
    requires later { All (λ f. IsFiling (arc_value f)) work.now.later }
    requires script { IsScript (length work.now.later) (length work.now.asks) work.now.script }
    requires asks { AreAllowed book work.now.asks }
    ensures { IfOk result (Serves book work.now) }
{
    let store = NodeStore::new(alloc, CELLS)?;
    let (clerk, watches) = begin(rt, alloc, book, work.script.desks)?;
    match prepare(alloc, &clerk, watches, &store, work, gate) {
        Ok(Ready { opening, tellers }) => {
            let log = drive(rt, alloc, clerk, tellers, work, gate)?;
            serve_text(alloc, &opening, work, &log)
        }
        Err(Mem) => {
            clerk.end(rt);
            Err(Mem)
        }
    }
}

/// The opening book, and a teller for each watch.
#[derive(Drop)]
struct Ready<'a, G: Gate> {
    opening: Arc<Book>,
    tellers: List<DeskTeller<'a, G>>,
}

fn prepare<'a, G: Gate>(
    alloc: Global,
    clerk: &Clerk,
    watches: List<Watch>,
    store: &'a NodeStore,
    work: &'a Workload,
    gate: &'a G,
) -> Result<Ready<'a, G>, Mem>
    requires watches { All (HasSeen clerk.now) watches }
    requires some { (0 < length watches) × (length watches ≤ 8) }
    requires asks { AreAllowed clerk.now.book work.now.asks }
    ensures opening { IfOk result (λ r. arc_value r.opening ≡ clerk.now.book) }
    ensures tellers { IfOk result (λ r. Each (IsOf (λ t. t.sight.house) (λ t. record { asks = t.asks; timetable = t.sight.book.timetable }) (λ t. t.wants) clerk.now.house (terms_of work.now.asks clerk.now.book)) r.tellers) }
    ensures some { IfOk result (λ r. 0 < length r.tellers) }
{
    let opening = Arc::try_clone(clerk.book())?;
    let tellers = tellers_of(alloc, clerk, watches, store, &work.asks, gate)?;
    Ok(Ready { opening, tellers })
}
