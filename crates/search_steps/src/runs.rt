//! Runs of a table's entries: those one after another of which the first that closes a unit makes the others idle.
ghost use Rattle.std.specs.Prelude.{◌≡◌, ◌≤◌, ◌<◌, ◌+◌, IfOk, IsTrue, length};
ghost use Rattle.search_steps.specs.Runs.{AreRuns, IsAlike, IsRun};

use crate::numbered::Step;
use crate::shortening::have_one_mark;
use fare_law::Mem;
use outlines::Entry;
use std::alloc::Global;

/// So many entries a run has at most, so that its length takes two bytes.
const MOST_OF_A_RUN: u16 = 65_535;

/// For each entry how many of its run there are from it on.
pub fn run_lengths(alloc: Global, entries: &[Entry], bare: &[Step]) -> Result<Vec<u16>, Mem>
    requires { length bare.now ≡ length entries.now }
    ensures { IfOk result (λ lengths. AreRuns entries.now bare.now lengths.items) }
{
    let mut lengths = Vec::with_capacity(alloc, entries.len())?;
    let mut left = 0;
    for at in 0..entries.len() {
        if left == 0 {
            left = run_from(entries, bare, at);
        }
        lengths.push(left)?;
        left -= 1;
    }
    Ok(lengths)
}

/// How many entries are of a run that begins at this place.
fn run_from(entries: &[Entry], bare: &[Step], from: usize) -> u16
    requires many { length bare.now ≡ length entries.now }
    requires from { from < length entries.now }
    ensures some { 1 ≤ result }
    ensures within { from + result ≤ length entries.now }
    ensures run { IsRun entries.now bare.now from result }
{
    let mut count = 1;
    for at in from + 1..entries.len() {
        let last = at - 1;
        if count == MOST_OF_A_RUN
            || !is_alike(&entries[last], &entries[at], &bare[last], &bare[at])
        {
            return count;
        }
        count += 1;
    }
    count
}

/// Whether an entry is filed the same way as the one before it, has its mark, and costs no less.
fn is_alike(entry: &Entry, next: &Entry, step: &Step, next_step: &Step) -> bool
    ensures { IsTrue result → IsAlike entry.now next.now step.now next_step.now }
{
    entry.outline.reverse == next.outline.reverse
        && step.price <= next_step.price
        && have_one_mark(step, next_step)
}
