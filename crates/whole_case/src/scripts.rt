//! The script of a case.
ghost use Rattle.std.specs.Prelude.{◌≤◌, length, IfOk};
ghost use Rattle.script_text.specs.Script.{IsScript};
ghost use Rattle.whole_case.specs.ServeCases as ServeCases;
ghost use Rattle.whole_case.specs.Stages.{Reads};

use crate::reasons::refused_at;
use crate::{LoadFault, Reason};
use case_text::{MOST_FILINGS, MOST_REQUESTS};
use fare_law::{Filing, List, Request, TextLine};
use script_text::{Script, ScriptFault, read_script};
use std::alloc::Global;

/// The script that these lines spell, over these later filings and requests.
pub fn script_in(
    alloc: Global,
    lines: &List<TextLine>,
    later: &List<Filing>,
    requests: &List<Request>,
) -> Result<Script, LoadFault>
    requires later { length later.now ≤ MOST_FILINGS }
    requires requests { length requests.now ≤ MOST_REQUESTS }
    ensures script { Reads result (ServeCases.script_in (length later.now) (length requests.now) lines.now) }
    ensures limits { IfOk result (IsScript (length later.now) (length requests.now)) }
{
    script_within(alloc, lines, later.len(), requests.len())
}

/// The script that these lines spell, within so many later filings and requests.
fn script_within(
    alloc: Global,
    lines: &List<TextLine>,
    later: usize,
    requests: usize,
) -> Result<Script, LoadFault>
    requires later { later ≤ MOST_FILINGS }
    requires requests { requests ≤ MOST_REQUESTS }
    ensures script { Reads result (ServeCases.script_in later requests lines.now) }
    ensures limits { IfOk result (IsScript later requests) }
{
    match read_script(alloc, lines.as_slice(), later as u32, requests as u32) {
        Ok(script) => Ok(script),
        Err(ScriptFault::Script { line }) => Err(refused_at(line, Reason::Script)),
        Err(ScriptFault::Mem) => Err(LoadFault::Mem),
    }
}
