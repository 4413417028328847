//! The laws of the steps of a graph's nodes.
ghost use Rattle.fare_law.specs.declared.requests.Request.{Request};
ghost use Rattle.fare_law.specs.Book.{Book};
ghost use Rattle.fare_law.specs.Limits.{IsRequest};
ghost use Rattle.pricing_graph.specs.NodesHold.{LeastRunsAreBest, NodesDiffer, NodesKeepLaws, RunsHaveMoves, TotalsAreSmall};
ghost use Rattle.residual_keys.specs.Written.{InLimits};

use fare_rules::limits_are_met;
use residual_keys::{one_next, reached_is_written, residual_order, runs_are_short};
use search_steps::reached_states_are_reached;
use ticket_order::codes_tell;

/// Where the book and the request are within their limits, the steps of a graph's nodes keep to the laws of
/// steps, and the least runs of steps from the root's node are the least runs from the root.
pub fn node_steps_hold()
    ensures laws { (b : Book) (q : Request) → InLimits b → IsRequest q → NodesKeepLaws b q }
    ensures once { (b : Book) (q : Request) → InLimits b → IsRequest q → NodesDiffer b q }
    ensures small { (b : Book) (q : Request) → InLimits b → IsRequest q → TotalsAreSmall b q }
    ensures moves { (b : Book) (q : Request) → InLimits b → IsRequest q → RunsHaveMoves b q }
    ensures best { (b : Book) (q : Request) → InLimits b → IsRequest q → LeastRunsAreBest b q }
{
    codes_tell();
    limits_are_met();
    one_next();
    reached_is_written();
    reached_states_are_reached();
    residual_order();
    runs_are_short();
}
