//! The searches of a script, listed.
ghost use Rattle.std.specs.Prelude.{◌≡◌, ◌++◌, IfOk, OnOk};
ghost use Rattle.serving.specs.Replies.{search_of, searches_from};

use crate::searches::SearchLine;
use fare_law::{List, Mem};
use script_text::ScriptLine;
use std::alloc::Global;

/// The searches among these lines, in order.
pub(crate) fn searches_of(alloc: Global, lines: &[ScriptLine]) -> Result<List<SearchLine>, Mem>
    ensures { IfOk result (λ searches. searches ≡ searches_from 1 lines.now) }
{
    let mut searches = List::new(alloc);
    for (at, line) in lines.iter().enumerate() {
        push_search(&mut searches, at + 1, *line)?;
    }
    Ok(searches)
}

/// Adds the search of a line, if it is one.
fn push_search(searches: &mut List<SearchLine>, line: usize, said: ScriptLine) -> Result<(), Mem>
    ensures { OnOk result (searches.new ≡ searches.old ++ search_of line said) }
{
    if let ScriptLine::Search { desk, request } = said {
        searches.push(SearchLine {
            line,
            desk,
            request,
        })?;
    }
    Ok(())
}
