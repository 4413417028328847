//! What a serving run is given.
ghost use Rattle.std.specs.Prelude.{length, All};
ghost use Rattle.script_text.specs.Script.{IsScript};
ghost use Rattle.serve_desks.specs.Lines.{AsksWithin, IsOfDesks};

use fare_law::{Filing, List, Request};
use script_text::Script;
use std::sync::Arc;

/// What is asked, and how many residuals its search may reach.
#[derive(PartialEq, Eq, Debug, Drop)]
pub struct Ask {
    pub request: Request,
    pub budget: u32,
}

/// What a serving run has to do.
#[derive(Drop)]
pub struct Workload {
    /// The filings that come while the desks search, in order.
    pub later: List<Arc<Filing>>,
    /// What the script's searches ask; it counts them from 1.
    pub asks: List<Ask>,
    pub script: Script,
}

/// Each line of a script is of one of its desks, waits for no more filings than come, and asks what can be asked.
pub(crate) fn lines_fit(work: &Workload)
    requires { IsScript (length work.now.later) (length work.now.asks) work.now.script }
    ensures desks { All (IsOfDesks work.now.script.desks (length work.now.later)) work.now.script.lines }
    ensures asks { All (AsksWithin (length work.now.asks)) work.now.script.lines }
{}
