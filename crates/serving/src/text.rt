//! The text of a serving run.
ghost use Rattle.std.specs.Prelude.{All, IfOk, length};
ghost use Rattle.std.specs.Arc.{arc_value};
ghost use Rattle.search_desk.specs.Outcomes.{AnswersAsk};
ghost use Rattle.fare_law.specs.FilingLimits.{IsFiling};
ghost use Rattle.script_text.specs.Script.{IsScript};
ghost use Rattle.serve_desks.specs.Logs.{Logged};
ghost use Rattle.serving.specs.Serves.{Serves};

use crate::headings::push_history;
use crate::listing::searches_of;
use crate::replies::push_replies;
use crate::versions::replay;
use fare_book::Book;
use fare_law::{List, Mem};
use serve_desks::{Log, Workload};
use std::alloc::Global;
use std::sync::Arc;

/// The text of a log of this work, from the opening book on. First `history` and the count of filings at the end; for
/// each of them `entry`, its number, and where it comes from; for each later filing that was refused `later`, its
/// number, the action and the reason. Then for each search of the script, in its order, `reply`, the number of its
/// line, the desk and the version, and the text of the answer or `too large`. Each line ends with LF.
///
/// It doesn't depend on which desk ended first; only the versions do.
pub fn serve_text(
    alloc: Global,
    opening: &Arc<Book>,
    work: &Workload,
    log: &Log,
) -> Result<List<u8>, Mem>
    requires later { All (λ f. IsFiling (arc_value f)) work.now.later }
    requires script { IsScript (length work.now.later) (length work.now.asks) work.now.script }
    requires logged { Logged AnswersAsk (arc_value opening.now) work.now log.now }
    ensures { IfOk result (Serves (arc_value opening.now) work.now) }
{
    let searches = searches_of(alloc, work.script.lines.as_slice())?;
    let (filed, replies) = (log.filed.as_slice(), log.replies.as_slice());
    let replayed = replay(alloc, opening, work.later.as_slice(), filed, replies)?;
    let mut text = Vec::new(alloc);
    push_history(alloc, &mut text, opening.number(), filed, replayed.count)?;
    let texts = replayed.texts.as_slice();
    push_replies(alloc, &mut text, searches.as_slice(), replies, texts)?;
    Ok(List::from_vec(text))
}
