//! Whole runs of `run` and `serve` over memory: on four small cases from sources and into sinks that fail at each call in turn, into
//! each smaller room, and cut after each byte; and runs whose desks and clerk are held by a gate. The report, which is to be the
//! beginning of the text beside this crate, has the texts that were written, and says of all other runs what came of them.
mod cases;
mod gates;
mod runs;
mod serves;
mod streams;

use crate::whole_runs::serves::report_serves;
use crate::whole_runs::streams::report_streams;
use fare_law::Mem;
use std::alloc::Global;
use std::env::{self, Env};
use std::io::{self, Write};
use std::sync::Wait;
use std::thread::Threads;

/// Tells of them where the program was given a word. What can't be told is missing from what the gate compares.
pub fn tell_if_asked<R, W>(rt: &R, alloc: Global, out: &mut W)
where
    R: Threads + Wait + Sync + Env + AllocGlobal,
    W: Write,
{
    let Ok(words) = words_of(rt) else {
        return;
    };
    if !words.is_empty() {
        let _ = match report_of(rt, alloc) {
            Ok(report) => out.write_all(report.as_slice()),
            Err(Mem) => out.write_all(b"out of memory\n"),
        };
    }
}

/// The words behind the program's name.
fn words_of<R: Env + AllocGlobal>(rt: &R) -> io::Result<Vec<String>> {
    Ok(env::args(rt)?.skip(1).collect::<Vec<String>>(rt.alloc())?)
}

fn report_of<R: Threads + Wait + Sync>(rt: &R, alloc: Global) -> Result<Vec<u8>, Mem> {
    let mut report = Vec::new(alloc);
    report_streams(rt, alloc, &mut report)?;
    report_serves(rt, alloc, &mut report)?;
    Ok(report)
}
