//! What the walk of a graph says of moves is what moves, runs and residuals say.
ghost use Rattle.std.specs.declared.cmp.Ordering.TheVariants.{Equal};
ghost use Rattle.std.specs.Prelude.{◌≡◌, ◌↔◌, ◌≤◌, ℕ, IsTrue, List, Option as Maybe, Some, length};
ghost use Rattle.fare_law.specs.declared.requests.Request.{Request};
ghost use Rattle.fare_law.specs.Book.{Book};
ghost use Rattle.fare_law.specs.Lists.{IsIn};
ghost use Rattle.graph_walk.specs.Walks.{AreReached, Costs, IsShort, LeastBy};
ghost use Rattle.open_unit.specs.declared.units.OpenUnit.{OpenUnit as UnitData};
ghost use Rattle.open_unit.specs.Ranges.{UnitInRanges};
ghost use Rattle.residual_keys.specs.Kept.{IsResidual};
ghost use Rattle.residual_keys.specs.Residuals.{State};
ghost use Rattle.residual_keys.specs.Searches.{Least, Reached};
ghost use Rattle.search_steps.specs.Leads.{IsRoot, MovesCostLess, leads_of, level_of};

use open_unit::OpenUnit;
use residual_keys::{Residual, residual_order, runs_are_short};

/// The least prices of a walk are the least prices of runs.
pub fn least_prices_are_least()
    ensures { (b : Book) (q : Request) (x : State) (bound : Maybe ℕ) → LeastBy (Costs (leads_of b q) (Some x)) bound → Least b q x bound }
{}

/// What a walk reaches from the root is what moves reach, and its runs are short.
pub fn reached_states_are_reached()
    ensures reached { (b : Book) (q : Request) (root : State) (found : List State) → IsRoot b q root → AreReached (leads_of b q) root found → (x : State) → IsIn x found ↔ Reached b q x }
    ensures short { (b : Book) (q : Request) (root : State) → IsRoot b q root → length q.slices ≤ 6 → MovesCostLess b q 4294967296 → IsShort (leads_of b q) level_of root }
{
    runs_are_short();
}

/// The test of residuals tells whether they are one.
pub fn residuals_tell()
    ensures { (x y : State) → IsResidual x → IsResidual y → IsTrue (⟦<Residual as PartialEq>⟧.eq x y) ↔ (x ≡ y) }
{
    residual_order();
    order_tells::<Residual>();
}

/// Values are equal where their order says so.
fn order_tells<T: Ord>()
    ensures { (a b : T) → IsTrue (T.eq a b) ↔ (T.cmp a b ≡ Equal) }
{}

/// So does the test of open units.
pub fn units_tell()
    ensures { (u v : UnitData) → UnitInRanges u → UnitInRanges v → IsTrue (⟦<OpenUnit as PartialEq>⟧.eq u v) ↔ (u ≡ v) }
{
    residuals_tell();
}
