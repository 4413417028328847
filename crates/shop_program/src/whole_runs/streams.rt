//! Four small cases from sources that fail, into sinks that fail or are full, and cut after each byte.
use crate::whole_runs::cases::{
    CHEAPER, OLD_AND_NEW, ONE_WAY, ROUND_TRIP, TWO_CARRIERS, search_case, serve_case,
};
use crate::whole_runs::gates::Plan;
use crate::whole_runs::runs::{Call, Command, command_of, ended, listed, written};
use fare_io::{FailSink, FailSource, MemSink, MemSource, Sink};
use fare_law::{List, Mem};
use lowfare::Status;
use std::alloc::Global;
use std::sync::Wait;
use std::thread::Threads;

/// A command, the case that it is given, and what it writes of it.
#[derive(Drop)]
struct Trial {
    command: Command,
    case: List<u8>,
    text: MemSink,
}

/// Tells what comes of each case.
pub fn report_streams<R: Threads + Wait + Sync>(
    rt: &R,
    alloc: Global,
    report: &mut Vec<u8>,
) -> Result<(), Mem> {
    let searches = [
        ("one way", ONE_WAY),
        ("round trip", ROUND_TRIP),
        ("two carriers", TWO_CARRIERS),
    ];
    for (name, parts) in searches {
        let command = command_of(alloc, Call::Run, &["search"])?;
        let case = search_case(alloc, parts)?;
        report_case(rt, alloc, name, command, case, report)?;
    }
    let command = command_of(alloc, Call::Serve(Plan::Overtake), &["serve"])?;
    let case = serve_case(
        alloc,
        ONE_WAY.book,
        [CHEAPER, ""],
        [ONE_WAY.request, ""],
        OLD_AND_NEW,
    )?;
    report_case(rt, alloc, "two desks", command, case, report)
}

/// Tells what comes of a case.
fn report_case<R: Threads + Wait + Sync>(
    rt: &R,
    alloc: Global,
    name: &str,
    command: Command,
    case: List<u8>,
    report: &mut Vec<u8>,
) -> Result<(), Mem> {
    let (status, text) = written(rt, alloc, &command, case.as_slice())?;
    let head = format!(in alloc; "{name}: status {}\n", status.number())?;
    report.extend_from_slice(head.as_bytes())?;
    report.extend_from_slice(text.as_slice())?;
    let trial = Trial {
        command,
        case,
        text,
    };
    report.extend_from_slice(of_sources(rt, alloc, &trial)?.as_slice())?;
    report.extend_from_slice(of_sinks(rt, alloc, &trial)?.as_slice())?;
    report.extend_from_slice(of_cuts(rt, alloc, &trial)?.as_slice())?;
    Ok(())
}

/// The list of this one call.
fn only_call(alloc: Global, number: u32) -> Result<List<u32>, Mem> {
    Ok(List::from_vec(vec![in alloc; number]?))
}

/// The number of a call or of a place in a text, each of which is small.
fn small(number: usize) -> Result<u32, Mem> {
    u32::try_from(number).map_err(|_| Mem)
}

/// What comes from sources whose first, second or third call fails. The first one gives all bytes, the second one tells that there are
/// no more, and a third one isn't made.
fn of_sources<R: Threads + Wait + Sync>(
    rt: &R,
    alloc: Global,
    trial: &Trial,
) -> Result<Vec<u8>, Mem> {
    let mut told = Vec::new(alloc);
    for call in 1..4 {
        let mut source = FailSource::new(
            listed(alloc, trial.case.as_slice())?,
            only_call(alloc, call)?,
        );
        let mut sink = MemSink::new(alloc, small(trial.text.as_slice().len())?)?;
        let status = ended(rt, alloc, &trial.command, &mut source, &mut sink);
        let what = how_much(sink.as_slice(), trial.text.as_slice());
        let line = format!(in alloc;
            "read {call} fails: status {}, {what} written\n",
            status.number()
        )?;
        told.extend_from_slice(line.as_bytes())?;
    }
    Ok(told)
}

/// How much of a text was written.
fn how_much(held: &[u8], text: &[u8]) -> &'static str {
    if held.is_empty() {
        "nothing"
    } else if held == text {
        "all"
    } else {
        "something else"
    }
}

/// How a run into this sink ended.
fn ended_into<K: Sink, R: Threads + Wait + Sync>(
    rt: &R,
    alloc: Global,
    trial: &Trial,
    sink: &mut K,
) -> Result<Status, Mem> {
    let mut source = MemSource::new(listed(alloc, trial.case.as_slice())?);
    Ok(ended(rt, alloc, &trial.command, &mut source, sink))
}

/// Whether a run that could write so many bytes ended as is due: with those bytes of the text, and by its status where it could write
/// no more.
fn is_due(status: Status, held: &[u8], text: &[u8], count: usize) -> bool {
    let due = if count == text.len() {
        Status::Done
    } else {
        Status::WriteFault
    };
    status == due && held.len() == count && text.starts_with(held)
}

/// Whether runs ended as is due into a sink that takes so many single bytes and then fails once, and into one with room for so many.
fn are_due<R: Threads + Wait + Sync>(
    rt: &R,
    alloc: Global,
    trial: &Trial,
    count: usize,
) -> Result<(bool, bool), Mem> {
    let text = trial.text.as_slice();
    let calls = only_call(alloc, small(count)?.saturating_add(1))?;
    let mut failing = FailSink::new(alloc, small(text.len())?, 1, calls)?;
    let status = ended_into(rt, alloc, trial, &mut failing)?;
    let fails = is_due(status, failing.as_slice(), text, count);
    let mut filling = MemSink::new(alloc, small(count)?)?;
    let status = ended_into(rt, alloc, trial, &mut filling)?;
    Ok((fails, is_due(status, filling.as_slice(), text, count)))
}

/// How many runs ended as is due whose sink failed at its first byte, at its second one, and so on, and behind the last one, and how many
/// whose sink had room for no byte, for one, and so on, up to all.
fn of_sinks<R: Threads + Wait + Sync>(
    rt: &R,
    alloc: Global,
    trial: &Trial,
) -> Result<Vec<u8>, Mem> {
    let length = trial.text.as_slice().len();
    let mut failed: u32 = 0;
    let mut filled: u32 = 0;
    for count in 0..=length {
        let (fails, fills) = are_due(rt, alloc, trial, count)?;
        if fails {
            failed = failed.saturating_add(1);
        }
        if fills {
            filled = filled.saturating_add(1);
        }
    }
    let mut told = Vec::new(alloc);
    let line = format!(in alloc;
        "{length} bytes: {failed} sinks that fail and {filled} with room for some as is due\n"
    )?;
    told.extend_from_slice(line.as_bytes())?;
    Ok(told)
}

/// What comes of the case cut after each of its bytes, wherever it isn't what came of one byte less.
fn of_cuts<R: Threads + Wait + Sync>(rt: &R, alloc: Global, trial: &Trial) -> Result<Vec<u8>, Mem> {
    let case = trial.case.as_slice();
    let mut told = Vec::new(alloc);
    let mut before = listed(alloc, b"")?;
    for count in 0..case.len() {
        let (status, sink) = written(rt, alloc, &trial.command, &case[..count])?;
        if sink.as_slice() != before.as_slice() {
            let head = format!(in alloc; "cut after {count}: status {}, ", status.number())?;
            told.extend_from_slice(head.as_bytes())?;
            told.extend_from_slice(or_the_same(sink.as_slice(), trial.text.as_slice()))?;
            before = listed(alloc, sink.as_slice())?;
        }
    }
    Ok(told)
}

/// What was written, or that it is the text of the whole case.
fn or_the_same<'a>(written: &'a [u8], text: &[u8]) -> &'a [u8] {
    if written == text {
        b"the same\n"
    } else {
        written
    }
}
