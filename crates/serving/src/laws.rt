//! A law for callers' proofs. It has no code.
ghost use Rattle.std.specs.Prelude.{length};
ghost use Rattle.search_desk.specs.Outcomes.{AnswersAsk};
ghost use Rattle.fare_law.specs.Book.{Book};
ghost use Rattle.fare_law.specs.Lists.{Matched};
ghost use Rattle.script_text.specs.Script.{IsScript};
ghost use Rattle.serve_desks.specs.Logs.{Logged};
ghost use Rattle.serve_desks.specs.declared.log.Log.{Log};
ghost use Rattle.serve_desks.specs.declared.workload.Workload.{Workload};
ghost use Rattle.serving.specs.Recorded.{IsRecordedReply};
ghost use Rattle.serving.specs.Replies.{searches_from};

use search_desk::replies_are_recorded;

/// Each reply of a run is what the core records: the outcome of its ask for a desk that looked after the first entries of
/// the run's history, as many as the reply's version has.
pub fn logs_are_recorded()
    ensures { (start : Book) (work : Workload) (log : Log) (run : Logged AnswersAsk start work log) → IsScript (length work.later) (length work.asks) work.script
        → Matched (IsRecordedReply start work.asks run.filings) (searches_from 1 work.script.lines) log.replies }
{
    replies_are_recorded();
}
