//! One teller at its lines of the script.
ghost use Rattle.std.specs.Prelude.{◌≡◌, ◌<◌, ◌≤◌, length, All, IfOk, OnOk};
ghost use Rattle.serve_desks.specs.Lines.{AsksWithin};
ghost use Rattle.serve_desks.specs.Served.{IsServed};

use crate::Teller;
use crate::beside::Job;
use crate::log::Entry;
use crate::minutes::{Board, House, Minutes};
use fare_law::{Gate, Mem};
use script_text::{Script, ScriptLine};
use std::alloc::Global;
use std::sync::Wait;

/// A teller with the replies that it gave.
#[derive(Drop)]
pub(crate) struct Served<T: Teller> {
    pub teller: T,
    pub replies: Vec<Entry>,
}

/// Works through the lines of those desks that are this teller's, smaller desks first. `Mem` where it wants memory, and
/// then the run stops, or where the run stops before its end.
pub(crate) fn serve<T: Teller, H: House, G: Gate, R: Wait>(
    rt: &R,
    job: Job<T, H>,
    script: &Script,
    board: &Board<H>,
    gate: &G,
) -> Result<Served<T>, Mem>
    requires script { All (AsksWithin (length H.terms.asks)) script.now.lines }
    ensures { IfOk result (IsServed T.house T.terms T.seen T.wants T.right H.name H.terms) }
{
    let Job {
        teller,
        place,
        tellers,
        of: _,
    } = job;
    let mut served = Served {
        teller,
        replies: Vec::new(board.alloc),
    };
    for desk in 0..script.desks {
        if desk as usize % tellers == place {
            serve_desk(rt, &mut served, desk, script.lines.as_slice(), board, gate)?;
        }
    }
    Ok(served)
}

/// Works through the lines of one desk, counted from 0.
fn serve_desk<T: Teller, H: House, G: Gate, R: Wait>(
    rt: &R,
    served: &mut Served<T>,
    own: u32,
    lines: &[ScriptLine],
    board: &Board<H>,
    gate: &G,
) -> Result<(), Mem>
    requires lines { All (AsksWithin (length H.terms.asks)) lines.now }
    requires served { IsServed T.house T.terms T.seen T.wants T.right H.name H.terms served.old }
    ensures { OnOk result (IsServed T.house T.terms T.seen T.wants T.right H.name H.terms served.new) }
{
    for (at, line) in lines.iter().enumerate() {
        match *line {
            ScriptLine::Search { desk, request } if desk.saturating_sub(1) == own => {
                board.go_on(rt)?;
                let answered = answer(rt, served, at, request, board);
                gate.done(desk);
                answered?;
            }
            ScriptLine::Await { desk, count } if desk.saturating_sub(1) == own => {
                wait_for(rt, &mut served.teller, board, count as usize)?;
            }
            _ => {}
        }
    }
    Ok(())
}

/// Answers one line. Where memory is wanting the run stops.
fn answer<T: Teller, H: House, R: Wait>(
    rt: &R,
    served: &mut Served<T>,
    line: usize,
    request: u32,
    board: &Board<H>,
) -> Result<(), Mem>
    requires request { (0 < request) × (request ≤ length H.terms.asks) }
    requires served { IsServed T.house T.terms T.seen T.wants T.right H.name H.terms served.old }
    ensures { OnOk result (IsServed T.house T.terms T.seen T.wants T.right H.name H.terms served.new) }
{
    let answered = add_reply::<T, H>(board.alloc, served, line, request);
    if answered.is_err() {
        board.stop(rt);
    }
    answered
}

/// Adds the reply to one line.
fn add_reply<T: Teller, H: House>(
    alloc: Global,
    served: &mut Served<T>,
    line: usize,
    request: u32,
) -> Result<(), Mem>
    requires request { (0 < request) × (request ≤ length H.terms.asks) }
    requires served { IsServed T.house T.terms T.seen T.wants T.right H.name H.terms served.old }
    ensures { OnOk result (IsServed T.house T.terms T.seen T.wants T.right H.name H.terms served.new) }
{
    let reply = served.teller.answer(alloc, request)?;
    served.replies.push(Entry {
        line,
        request,
        reply,
    })?;
    Ok(())
}

/// Waits until so many filings were judged, and learns of those that were accepted; `Mem` where the run stops.
fn wait_for<T: Teller, H: House, R: Wait>(
    rt: &R,
    teller: &mut T,
    board: &Board<H>,
    count: usize,
) -> Result<(), Mem>
    requires { T.house teller.old ≡ H.name }
    ensures same { (T.house teller.new ≡ T.house teller.old) × (T.terms teller.new ≡ T.terms teller.old) × (T.seen teller.new ≡ T.seen teller.old) × (T.wants teller.new ≡ T.wants teller.old) }
{
    let guard = board
        .news
        .wait_while(rt, board.minutes.lock(rt), |m: &mut Minutes<H>| {
            m.slips.len() < count && !m.is_stopped
        });
    let minutes = &*guard;
    if minutes.is_stopped {
        return Err(Mem);
    }
    for slip in &minutes.slips {
        if let Some(receipt) = &slip.receipt {
            teller.learn(receipt);
        }
    }
    Ok(())
}
