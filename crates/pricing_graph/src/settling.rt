//! What the keys of a search ask for, settled with a source of offers.
ghost use Rattle.std.specs.Prelude.{◌≡◌, IfOk, OnOk};
ghost use Rattle.asked_keys.specs.Asking.{IsAsked};
ghost use Rattle.fare_component.specs.Keys.{Asked, asked};
ghost use Rattle.fare_law.specs.declared.market.OfferKey.{OfferKey};
ghost use Rattle.fare_law.specs.Limits.{IsRequest};
ghost use Rattle.fare_law.specs.Lists.{Each};
ghost use Rattle.graph_walk.specs.Steps.{AreLive, rows_of};
ghost use Rattle.graph_walk.specs.Walks.{states};
ghost use Rattle.pricing_graph.specs.Graphs.{IsGraph};
ghost use Rattle.residual_keys.specs.AskedKeys.{Keys};
ghost use Rattle.search_steps.specs.Keys.{live, state};

use crate::Graph;
use asked_keys::{add_asked, settle_keys};
use fare_component::OfferSource;
use fare_law::{List, Mem};
use residual_keys::Residual;
use search_steps::SearchSteps;
use std::alloc::Global;

impl Graph {
    /// Has a source of offers settle what the keys of the search ask for. One with which all is settled isn't asked.
    pub(crate) fn settle<O: OfferSource>(
        &self,
        alloc: Global,
        steps: &SearchSteps,
        offers: &mut O,
    ) -> Result<(), Mem>
        requires request { IsRequest steps.now.case.request.now }
        requires live { AreLive (live steps.now) self.now.rows.entries }
        requires graph { IsGraph steps.now.case.book.now steps.now.case.request.now (rows_of (state steps.now) self.now.rows.entries) }
        ensures settled { OnOk result ((key : OfferKey) → Keys steps.now.case.book.now steps.now.case.request.now key → O.settled offers.new (asked key)) }
        ensures base { O.base offers.new ≡ O.base offers.old }
        ensures stays { (a : Asked) → O.settled offers.old a → O.settled offers.new a }
    {
        if offers.settles_all() {
            return Ok(());
        }
        let case = steps.case();
        let residuals = self.asked_residuals(alloc, steps)?;
        settle_keys(alloc, case.book, case.request, residuals.as_slice(), offers)
    }

    /// Residuals of the graph that have the keys of all of them. Keys depend on the position and on whether a unit is open,
    /// and nodes stand in that order: so of each position only the last node is needed, which has a unit open if any has.
    fn asked_residuals(&self, alloc: Global, steps: &SearchSteps) -> Result<List<Residual>, Mem>
        requires { AreLive (live steps.now) self.now.rows.entries }
        ensures { IfOk result (λ asked. Each (IsAsked asked) (states (rows_of (state steps.now) self.now.rows.entries))) }
    {
        let mut asked = List::new(alloc);
        let mut left = self.size();
        while left > 0 {
            left -= 1;
            add_asked(&mut asked, self.residual(steps, left))?;
        }
        Ok(asked)
    }
}
