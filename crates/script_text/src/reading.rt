//! Reading a script.
ghost use Rattle.std.specs.Prelude.{MatchOption, IfOk};
ghost use Rattle.script_text.specs.Script.{IsScript, Reads, ReadsLines, Spells, SpellsNone};

use crate::lines::Counts;
use crate::numbers::{number_after, number_within};
use crate::{Script, ScriptFault, ScriptLine};
use fare_law::{List, TextLine};
use std::alloc::Global;
use word_text::cut;

/// The script that the lines spell: first `desks n`, n from 1 to 8, then lines `d search r` and
/// `d wait n`. Desk d and request r are counted from 1, and n is at most the count of later filings.
///
/// `Script` exactly where some line isn't so: at the first of them, or at 0 where there is no line.
#[tactic(auto, using(crate::proofs::LineLemmas::each_within))]
pub fn read_script(
    alloc: Global,
    lines: &[TextLine],
    later: u32,
    requests: u32,
) -> Result<Script, ScriptFault>
    ensures script { Reads later requests lines.now result }
    ensures limits { IfOk result (IsScript later requests) }
{
    let [first, rest @ ..] = lines else {
        return Err(ScriptFault::Script { line: 0 });
    };
    let Some(desks) = number_after(b"desks ", first.bytes.as_slice(), 1, 8) else {
        return Err(ScriptFault::Script { line: first.line });
    };
    let counts = Counts {
        desks,
        later,
        requests,
    };
    let lines = script_lines(alloc, rest, counts)?;
    Ok(Script { desks, lines })
}

// What the desks do, line by line.
#[tactic(auto, using(crate::proofs::LineLemmas::line_steps))]
fn script_lines(
    alloc: Global,
    lines: &[TextLine],
    counts: Counts,
) -> Result<List<ScriptLine>, ScriptFault>
    ensures { ReadsLines counts lines.now result }
{
    let mut script = List::new(alloc);
    for line in lines {
        let Some(next) = script_line(line.bytes.as_slice(), counts) else {
            return Err(ScriptFault::Script { line: line.line });
        };
        script.push(next)?;
    }
    Ok(script)
}

// What one desk does, if the line says so within the counts.
fn script_line(line: &[u8], counts: Counts) -> Option<ScriptLine>
    ensures { MatchOption result (SpellsNone counts line.now) (Spells counts line.now) }
{
    let (desk, order) = cut(line, b' ')?;
    let desk = number_within(desk, 1, counts.desks)?;
    if let Some(request) = number_after(b"search ", order, 1, counts.requests) {
        return Some(ScriptLine::Search { desk, request });
    }
    let count = number_after(b"wait ", order, 0, counts.later)?;
    Some(ScriptLine::Await { desk, count })
}
