//! The answers of a certificate.
ghost use Rattle.std.specs.Prelude.{◌≡◌, map, IfOk};
ghost use Rattle.search_core.specs.Graphs.{answer_as};

use certificate::CertAnswer;
use fare_law::{List, Mem};
use pricing_graph::DrawnRun;
use std::alloc::Global;

/// Runs that were drawn, as the answers of a certificate.
pub fn answers_of(alloc: Global, runs: List<DrawnRun>) -> Result<List<CertAnswer>, Mem>
    ensures { IfOk result (λ answers. answers ≡ map answer_as runs) }
{
    let answers = runs
        .into_vec()
        .into_iter()
        .map(|run| CertAnswer {
            price: run.price,
            moves: run.moves,
        })
        .collect::<Vec<CertAnswer>>(alloc)?;
    Ok(List::from_vec(answers))
}
