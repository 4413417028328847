//! The rows of a certificate.
ghost use Rattle.std.specs.Prelude.{◌≡◌, map, IfOk};
ghost use Rattle.certificate.specs.CertOf.{RowsAre};
ghost use Rattle.fare_law.specs.declared.requests.Request.{Request as Asking};
ghost use Rattle.fare_law.specs.Book.{Book as Version};
ghost use Rattle.graph_walk.specs.Steps.{AreLive, rows_of};
ghost use Rattle.pricing_graph.specs.Graphs.{IsGraph};
ghost use Rattle.search_core.specs.Answers.{node_of};
ghost use Rattle.search_steps.specs.Keys.{live, state};

use certificate::{CertRows, NumberedRow};
use fare_law::Mem;
use pricing_graph::Graph;
use search_steps::SearchSteps;
use std::alloc::Global;

/// The residuals of a graph, in order, each with its least price.
pub fn rows_of(alloc: Global, graph: &Graph, steps: &SearchSteps) -> Result<CertRows, Mem>
    requires { AreLive (live steps.now) graph.now.rows.entries }
    ensures nodes { IfOk result (λ rows. map node_of rows ≡ rows_of (state steps.now) graph.now.rows.entries) }
    ensures rows { IfOk result (λ rows. (b : Version) (q : Asking) → IsGraph b q (rows_of (state steps.now) graph.now.rows.entries) → RowsAre b q rows) }
{
    let mut rows = Vec::with_capacity(alloc, graph.size() as usize)?;
    for node in 0..graph.size() {
        rows.push(NumberedRow::new(&graph.key(node), graph.bound(node)))?;
    }
    Ok(CertRows::of(steps.numbers().copied()?, rows))
}
