//! Drawing runs one at a time.
ghost use Rattle.std.specs.Prelude.{ℕ, ◌≡◌, ◌<◌, ◌^◌, [], length, IfOk, OnOk};
ghost use Rattle.best_steps.specs.Runs.{LeastRuns, Same, StepLaws};
ghost use Rattle.best_steps.specs.Searches.{IsBegun, IsSearch, IsTurn};

use crate::asking::step_at;
use crate::branches::wait_at;
use crate::kept::Kept;
use crate::queue::{empty, pop};
use crate::search::Search;
use crate::source::Steps;
use crate::waiting::Branch;
use crate::words::{append, code, cut};
use best_k::Derivation;
use fare_law::{List, Mem};
use std::alloc::Global;
use std::collections::HashMap;

/// A search of which no run is drawn.
fn begun<S: Steps>(alloc: Global, steps: &mut S, root: u64, most: usize) -> Result<Search, Mem>
    requires ready { S.ready steps.old }
    requires root { root < S.nodes steps.old }
    requires laws { StepLaws (S.has steps.old) (S.nodes steps.old) (S.level steps.old) }
    ensures search { IfOk result (IsBegun (S.has steps.old) root) }
    ensures same { Same (S.has steps.old) (S.has steps.new) }
    ensures nodes { S.nodes steps.new ≡ S.nodes steps.old }
    ensures level { (n : ℕ) → S.level steps.new n ≡ S.level steps.old n }
    ensures later { S.later steps.old steps.new }
{
    let mut kept = Kept {
        most,
        lists: HashMap::new(alloc),
    };
    let mut waiting = empty(alloc);
    let front = List::new(alloc);
    wait_at(alloc, steps, &mut kept, &mut waiting, 0, &front, root, 0)?;
    let drawn = List::new(alloc);
    Ok(Search {
        root,
        kept,
        drawn,
        waiting,
    })
}

/// Draws the next run, where there is one. The branch that comes first is taken out; on the way to the end of
/// its least run the next step of each node is put to wait.
fn draw<S: Steps>(alloc: Global, steps: &mut S, search: &mut Search) -> Result<bool, Mem>
    requires ready { S.ready steps.old }
    requires root { search.old.root < S.nodes steps.old }
    requires laws { StepLaws (S.has steps.old) (S.nodes steps.old) (S.level steps.old) }
    requires few { length search.old.drawn < 2 ^ 32 }
    requires search { IsSearch (S.has steps.old) search.old }
    ensures search { OnOk result (IsSearch (S.has steps.old) search.new) }
    ensures root { OnOk result (search.new.root ≡ search.old.root) }
    ensures turn { IfOk result (IsTurn search.old search.new) }
    ensures same { Same (S.has steps.old) (S.has steps.new) }
    ensures nodes { S.nodes steps.new ≡ S.nodes steps.old }
    ensures level { (n : ℕ) → S.level steps.new n ≡ S.level steps.old n }
    ensures later { S.later steps.old steps.new }
{
    let Some(branch) = pop(&mut search.waiting) else {
        return Ok(false);
    };
    let Branch {
        price: _,
        word,
        mut cost,
        front,
        mut node,
        mut place,
        mut step,
    } = branch;
    let mut front = cut(word, front);
    'down: loop {
        wait_at(
            alloc,
            steps,
            &mut search.kept,
            &mut search.waiting,
            cost,
            &front,
            node,
            place + 1,
        )?;
        append(&mut front, &step.word)?;
        cost += step.price;
        match step.next {
            None => {
                let word = code(&front);
                search.drawn.push(Derivation { price: cost, word })?;
                return Ok(true);
            }
            Some(next) => match step_at(alloc, steps, &mut search.kept, next, 0)? {
                Some(first) => {
                    node = next;
                    place = 0;
                    step = first;
                }
                None => unreachable!(),
            },
        }
    }
}

/// The `k` least runs from a node, ascending by price and then word; all of them where there are fewer. Words
/// compare number by number. It answers `Mem` only for want of memory.
///
/// The laws: a step leads to the end or to a node of smaller level; its total is its price and the least
/// total of the steps that may follow; no word of a node's step begins with the word of another; runs cost
/// less than 2^63, and their words have at most `CODE_NUMBERS` numbers. No node is asked for more than `k + 1` steps.
pub fn best_steps<S: Steps>(
    alloc: Global,
    steps: &mut S,
    root: u64,
    k: u32,
) -> Result<List<Derivation>, Mem>
    requires ready { S.ready steps.old }
    requires root { root < S.nodes steps.old }
    requires laws { StepLaws (S.has steps.old) (S.nodes steps.old) (S.level steps.old) }
    ensures least { IfOk result (LeastRuns (S.has steps.old) root k) }
    ensures same { Same (S.has steps.old) (S.has steps.new) }
    ensures nodes { S.nodes steps.new ≡ S.nodes steps.old }
    ensures level { (n : ℕ) → S.level steps.new n ≡ S.level steps.old n }
    ensures later { S.later steps.old steps.new }
{
    let mut search = begun(alloc, steps, root, k as usize + 1)?;
    for turn in 0..k {
        if !draw(alloc, steps, &mut search)? {
            return Ok(search.drawn);
        }
    }
    Ok(search.drawn)
}
