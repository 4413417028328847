//! What runs of desks are given to do, and what their tellers say.
ghost use Rattle.std.specs.Prelude.{◌≡◌, ◌≤◌, length, All, IfOk};
ghost use Rattle.std.specs.Arc.{arc_value};
ghost use Rattle.fare_law.specs.FilingLimits.{IsFiling};
ghost use Rattle.fare_law.specs.Lists.{IsPrefix};
ghost use Rattle.fare_law.specs.declared.limits.TheConstants.{MOST_ENTRIES};
ghost use Rattle.fare_versions.specs.Published.{Grows};
ghost use Rattle.fare_versions.specs.Seen.{seen_by};
ghost use Rattle.script_text.specs.Script.{IsScript};
ghost use Rattle.serve_desks.specs.Wants.{CountsWants};

use crate::books::{key_out, put_at, request};
use crate::filings::filing_of;
use fare_law::{Action, Filing, List, Mem, TextLine};
use fare_versions::Watch;
use script_text::{Script, read_script};
use serve_desks::{Ask, Body, Reply, Workload};
use std::alloc::Global;
use std::sync::Arc;
use std::test::Fail;

/// The number of the version that the watch sees, and the count of wants of memory after that look.
pub(crate) fn looked(watch: &mut Watch, wants: u32) -> (Result<u32, Mem>, u32)
    requires { wants ≡ 0 }
    ensures seen { Grows (seen_by watch.old) (seen_by watch.new) }
    ensures told { watch.new.told ≡ watch.old.told }
    ensures number { IfOk result.0 (λ n. (n ≡ length watch.new.book.entries) × IsPrefix watch.old.told watch.new.book.entries) }
    ensures few { IfOk result.0 (λ n. n ≤ MOST_ENTRIES) }
    ensures wants { CountsWants wants result.1 result.0 }
{
    match watch.look() {
        Ok(book) => (Ok(book.number()), wants),
        Err(_) => (Err(Mem), wants + 1),
    }
}

pub(crate) fn too_large(number: u32) -> Reply
    ensures { result ≡ record { number = number; body = Body.TooLarge } }
{
    Reply {
        number,
        body: Body::TooLarge,
    }
}

/// A fare is put, and then another dropped that isn't there.
fn later(alloc: Global) -> Result<List<Arc<Filing>>, Mem>
    ensures filings { IfOk result (All (λ f. IsFiling (arc_value f))) }
    ensures count { IfOk result (λ l. length l ≡ 2) }
{
    let mut later = List::new(alloc);
    later.push(filing_of(alloc, put_at(key_out(b'Y'), 20000))?)?;
    later.push(filing_of(alloc, Action::DropFare(key_out(b'B')))?)?;
    Ok(later)
}

fn asks(alloc: Global) -> Result<List<Ask>, Mem>
    ensures { IfOk result (λ l. length l ≡ 1) }
{
    let mut asks = List::new(alloc);
    asks.push(Ask {
        request: request(),
        budget: 1000,
    })?;
    Ok(asks)
}

/// The work of two filings and one ask that these lines of a script name.
pub(crate) fn workload(alloc: Global, lines: &[&str]) -> Result<Workload, Fail>
    ensures later { IfOk result (λ w. All (λ f. IsFiling (arc_value f)) w.later) }
    ensures script { IfOk result (λ w. IsScript (length w.later) (length w.asks) w.script) }
{
    Ok(Workload {
        later: later(alloc)?,
        asks: asks(alloc)?,
        script: script(alloc, lines)?,
    })
}

/// The script of two filings and one ask.
fn script(alloc: Global, texts: &[&str]) -> Result<Script, Fail>
    ensures { IfOk result (IsScript 2 1) }
{
    let mut lines = Vec::new(alloc);
    for (line, text) in (1..99).zip(texts) {
        let bytes = List::from_vec(text.as_bytes().to_vec(alloc)?);
        lines.push(TextLine { line, bytes })?;
    }
    Ok(read_script(alloc, lines.as_slice(), 2, 1)?)
}
