//! What the case of a serving run gives it to do.
ghost use Rattle.std.specs.Prelude.{◌≡◌, All, length, map, IfOk};
ghost use Rattle.std.specs.Arc.{arc_value};
ghost use Rattle.fare_law.specs.FilingLimits.{IsFiling};
ghost use Rattle.fare_law.specs.Lists.{Each};
ghost use Rattle.lowfare.specs.Servings.{IsWorkOf, asks_of as asks_for};

use fare_law::{Filing, List, Mem, Request};
use script_text::Script;
use serve_desks::{Ask, Workload};
use std::alloc::Global;
use std::sync::Arc;

/// The later filings, the script, and the requests, each within the budget.
pub(crate) fn work_of(
    alloc: Global,
    later: List<Filing>,
    requests: List<Request>,
    script: Script,
    budget: u32,
) -> Result<Workload, Mem>
    requires { Each IsFiling later }
    ensures work { IfOk result (IsWorkOf budget later requests script) }
    ensures limits { IfOk result (λ work. All (λ f. IsFiling (arc_value f)) work.later) }
{
    let later = shared(alloc, later)?;
    let asks = asks_of(alloc, requests, budget)?;
    Ok(Workload {
        later,
        asks,
        script,
    })
}

/// These filings, shared.
fn shared(alloc: Global, filings: List<Filing>) -> Result<List<Arc<Filing>>, Mem>
    requires { Each IsFiling filings }
    ensures same { IfOk result (λ shared. map arc_value shared ≡ filings) }
    ensures limits { IfOk result (λ shared. All (λ f. IsFiling (arc_value f)) shared) }
{
    let mut left = filings.into_vec();
    left.reverse();
    let mut shared = List::new(alloc);
    while let Some(filing) = left.pop() {
        let filing = Arc::new(alloc, filing)?;
        shared.push(filing)?;
    }
    Ok(shared)
}

/// What is asked by these requests, each within the budget.
fn asks_of(alloc: Global, requests: List<Request>, budget: u32) -> Result<List<Ask>, Mem>
    ensures { IfOk result (λ asks. asks ≡ asks_for budget requests) }
{
    let asks = requests
        .into_vec()
        .into_iter()
        .map(|request| Ask { request, budget })
        .collect::<Vec<Ask>>(alloc)?;
    Ok(List::from_vec(asks))
}
