//! The nodes of a graph, as givers of their steps.
ghost use Rattle.std.proofs.Common.{◌∙◌, refl};
ghost use Rattle.std.specs.Prelude.{length};
ghost use Rattle.graph_walk.specs.Walks.{states};
ghost use Rattle.pricing_graph.specs.Givers.{IsLater, IsReady, nodes_of};
ghost use Rattle.pricing_graph.specs.NodeSteps.{HasNodeStep, level_at};

use crate::Graph;
use crate::laws::node_steps_hold;
use crate::moving::steps_of;
use best_steps::{Step, Steps};
use fare_law::{List, Mem};
use residual_keys::book_limits;
use search_steps::SearchSteps;
use std::alloc::Global;

/// A graph with the steps of its search. Its nodes give the moves that have a run after them, with the
/// least prices of the graph as bounds.
#[derive(Drop)]
pub struct NodeSteps<'g, 's, 'a> {
    pub graph: &'g Graph,
    pub steps: &'s mut SearchSteps<'a>,
}

impl<'g, 's, 'a> Steps for NodeSteps<'g, 's, 'a> {
    ghost has = { λ s. HasNodeStep s.steps.now.case.book.now s.steps.now.case.request.now (nodes_of s) };

    ghost nodes = { λ s. length (nodes_of s) };

    ghost level = { λ s. level_at (states (nodes_of s)) };

    ghost ready = { IsReady };

    ghost later = { IsLater };

    fn first_steps(&mut self, alloc: Global, node: u64, wanted: usize) -> Result<List<Step>, Mem> {
        book_limits(self.steps.case().book);
        node_steps_hold();
        self.steps.keys_tell();
        let key = self.graph.key(node as u32);
        let least = self.steps.least_moves(alloc, key, self.graph, wanted)?;
        self.steps.keys_tell();
        steps_of(alloc, self.graph, least.as_slice())
    }

    ghost unasked = { λ s. record { ready = λ r. r; case = record { book = refl; request = refl }; keeps = λ k l. (l, refl); same_steps = refl } };

    ghost still_ready = { λ s t l r. l.ready r };

    ghost further = { λ s t u l m. record {
      ready = λ r. m.ready (l.ready r);
      case = record { book = m.case.book ∙ l.case.book; request = m.case.request ∙ l.case.request };
      keeps = λ k h. ((m.keeps k (l.keeps k h).0).0, (m.keeps k (l.keeps k h).0).1 ∙ (l.keeps k h).1);
      same_steps = m.same_steps ∙ l.same_steps;
    } };
}
