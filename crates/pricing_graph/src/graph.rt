//! The graph of a search.
ghost use Rattle.std.specs.Prelude.{◌≡◌, ◌≤◌, ◌<◌, ◌^◌, Some, length, option_map, position, slice_get, IfErr, IfOk, OnOk};
ghost use Rattle.fare_component.specs.Keys.{Asked, asked};
ghost use Rattle.fare_law.specs.declared.market.OfferKey.{OfferKey};
ghost use Rattle.fare_law.specs.Limits.{IsRequest};
ghost use Rattle.graph_walk.specs.Steps.{AreLive, rows_of};
ghost use Rattle.std.specs.Map.{keys_of};
ghost use Rattle.pricing_graph.specs.Graphs.{IsGraph, IsTooLarge};
ghost use Rattle.residual_keys.specs.AskedKeys.{Keys};
ghost use Rattle.residual_keys.specs.Searches.{ReachesMoreThan};
ghost use Rattle.search_steps.specs.Cases.{IsSameCase};
ghost use Rattle.search_steps.specs.Keys.{live, state};

use crate::GraphFault;
use crate::rows::reached_rows;
use fare_component::OfferSource;
use residual_keys::{Residual, one_size};
use residual_table::ResidualKey;
use search_steps::{ResidualRows, SearchSteps};
use std::alloc::Global;

/// The residuals that a search reaches, in order, each with the least price of a run from it.
#[derive(Drop)]
pub struct Graph {
    pub(crate) rows: ResidualRows,
    ghost small: { length rows.entries < 2 ^ 32 },
}

impl Graph {
    /// The graph of a search. Too large exactly where more residuals are reached than the budget. After `Ok` whatever the keys
    /// of the search ask for is settled with the source of offers.
    pub fn build<O: OfferSource>(
        alloc: Global,
        budget: u32,
        steps: &mut SearchSteps,
        offers: &mut O,
    ) -> Result<Graph, GraphFault>
        requires { IsRequest steps.old.case.request.now }
        ensures graph { IfOk result (λ g. IsGraph steps.old.case.book.now steps.old.case.request.now (rows_of (state steps.new) g.rows.entries)) }
        ensures live { IfOk result (λ g. AreLive (live steps.new) g.rows.entries) }
        ensures few { IfOk result (λ g. length g.rows.entries ≤ budget) }
        ensures fits { OnOk result (ReachesMoreThan budget steps.old.case.book.now steps.old.case.request.now → ⊥) }
        ensures large { IfErr result (IsTooLarge steps.old.case.book.now steps.old.case.request.now budget) }
        ensures case { IsSameCase steps.old steps.new }
        ensures settled { OnOk result ((key : OfferKey) → Keys steps.old.case.book.now steps.old.case.request.now key → O.settled offers.new (asked key)) }
        ensures base { O.base offers.new ≡ O.base offers.old }
        ensures stays { (a : Asked) → O.settled offers.old a → O.settled offers.new a }
    {
        one_size();
        let mut rows = reached_rows(alloc, budget, steps)?;
        steps.put_in_order(alloc, &mut rows)?;
        let graph = Graph { rows };
        graph.settle(alloc, steps, offers)?;
        Ok(graph)
    }

    /// How many residuals there are.
    pub fn size(&self) -> u32
        ensures { result ≡ length self.now.rows.entries }
    {
        self.rows.len() as u32
    }

    /// The residual of a node. Nodes are counted from 0, and ascend by residual.
    pub fn residual(&self, steps: &SearchSteps, node: u32) -> Residual
        requires node { node < length self.now.rows.entries }
        requires live { AreLive (live steps.now) self.now.rows.entries }
        ensures { option_map (λ x. x.0) (slice_get (rows_of (state steps.now) self.now.rows.entries) node) ≡ Some result }
    {
        steps.residual(self.key(node))
    }

    /// The least price of a run from the residual of a node. None where there is no run.
    pub fn bound(&self, node: u32) -> Option<u64>
        requires { node < length self.now.rows.entries }
        ensures { option_map (λ row. row.1) (slice_get self.now.rows.entries node) ≡ Some result }
    {
        self.rows.entries()[node as usize].1
    }

    /// The node of a key. None where it isn't one of the graph.
    pub(crate) fn node(&self, key: ResidualKey) -> Option<u64>
        ensures { result ≡ position (⟦<ResidualKey as PartialEq>⟧.eq key) (keys_of self.now.rows.entries) }
    {
        match self.rows.find(&key) {
            Some(node) => Some(node as u64),
            None => None,
        }
    }

    /// The key of a node.
    pub fn key(&self, node: u32) -> ResidualKey
        requires { node < length self.now.rows.entries }
        ensures { option_map (λ row. row.0) (slice_get self.now.rows.entries node) ≡ Some result }
    {
        self.rows.entries()[node as usize].0
    }
}
