//! The least runs of a graph.
ghost use Rattle.std.specs.Prelude.{◌<◌, map, IfOk};
ghost use Rattle.fare_law.specs.Limits.{IsRequest};
ghost use Rattle.graph_walk.specs.Steps.{AreLive, KeepsStates, rows_of};
ghost use Rattle.pricing_graph.specs.DrawnRuns.{run_of_drawn};
ghost use Rattle.pricing_graph.specs.Graphs.{IsGraph};
ghost use Rattle.pricing_graph.specs.NodeSteps.{IsRootNode};
ghost use Rattle.residual_keys.specs.Searches.{BestRuns};
ghost use Rattle.search_steps.specs.Cases.{IsSameCase};
ghost use Rattle.search_steps.specs.Keys.{live, state};

use crate::drawn::runs_of_words;
use crate::giving::NodeSteps;
use crate::laws::node_steps_hold;
use crate::{DrawnRun, Graph};
use best_steps::best_steps;
use fare_law::{List, Mem};
use residual_keys::{book_limits, root};
use search_steps::SearchSteps;
use std::alloc::Global;

impl Graph {
    /// The `k` least runs from the root, by price and then code; all of them where there are fewer.
    pub fn runs(
        &self,
        alloc: Global,
        steps: &mut SearchSteps,
        k: u32,
    ) -> Result<List<DrawnRun>, Mem>
        requires request { IsRequest steps.old.case.request.now }
        requires live { AreLive (live steps.old) self.now.rows.entries }
        requires graph { IsGraph steps.old.case.book.now steps.old.case.request.now (rows_of (state steps.old) self.now.rows.entries) }
        ensures runs { IfOk result (λ runs. BestRuns steps.old.case.book.now steps.old.case.request.now k (map run_of_drawn runs)) }
        ensures keeps { KeepsStates (live steps.old) (live steps.new) (state steps.old) (state steps.new) }
        ensures case { IsSameCase steps.old steps.new }
    {
        let root = self.root(steps)?;
        book_limits(steps.case().book);
        node_steps_hold();
        let mut nodes = NodeSteps { graph: self, steps };
        let found = best_steps(alloc, &mut nodes, root, k)?;
        runs_of_words(alloc, found.as_slice())
    }

    /// The node of the root.
    fn root(&self, steps: &mut SearchSteps) -> Result<u64, Mem>
        requires request { IsRequest steps.old.case.request.now }
        requires live { AreLive (live steps.old) self.now.rows.entries }
        requires graph { IsGraph steps.old.case.book.now steps.old.case.request.now (rows_of (state steps.old) self.now.rows.entries) }
        ensures node { IfOk result (IsRootNode steps.new.case.book.now steps.new.case.request.now (rows_of (state steps.new) self.now.rows.entries)) }
        ensures keeps { KeepsStates (live steps.old) (live steps.new) (state steps.old) (state steps.new) }
        ensures case { IsSameCase steps.old steps.new }
    {
        let case = steps.case();
        let key = steps.key_of(root(case.book, case.request))?;
        steps.keys_tell();
        match self.node(key) {
            Some(node) => Ok(node),
            None => unreachable!(),
        }
    }
}
