//! The program: the words and the standard streams go to the top call that carries their command, and it ends with its
//! status. Where no text is written, or only a front of it, a person is told on standard error.
#![tactic(auto)]

use fare_io::{Sink, Source, StdSink, StdSource};
use fare_law::{Mem, NoGate};
use lowfare::{Status, is_serve, run, serve};
use std::alloc::Global;
use std::env::{self, Env};
use std::io::{self, ErrorKind};
use std::process::ExitCode;
use std::sync::Wait;
use std::thread::Threads;

/// How the program ends.
#[derive(Clone, Copy)]
enum End {
    With(Status),
    /// The words can't be had from the system, and memory isn't why.
    WithoutWords,
}

fn main(rt: HostRuntime) -> ExitCode {
    let alloc = rt.alloc();
    let mut source = StdSource::new(rt.stdin());
    let mut sink = StdSink::new(rt.stdout());
    let end = match words_of(&rt) {
        Ok(words) => End::With(carry_out(&rt, alloc, words.as_slice(), &mut source, &mut sink)),
        Err(error) => end_without_words(error.kind()),
    };
    if let Some(complaint) = complaint(end) {
        // Whether it can be told or not, the program ends as it ends.
        let _ = rt.eprintln(complaint);
    }
    ExitCode::from(number(end))
}

/// The words behind the program's name.
fn words_of<R: Env + AllocGlobal>(rt: &R) -> io::Result<Vec<String>> {
    Ok(env::args(rt)?.skip(1).collect::<Vec<String>>(rt.alloc())?)
}

/// Carries out the command that the words are.
fn carry_out<S, K, R>(
    rt: &R,
    alloc: Global,
    words: &[String],
    source: &mut S,
    sink: &mut K,
) -> Status
where
    S: Source,
    K: Sink,
    R: Threads + Wait + Sync,
{
    match is_serve(alloc, words) {
        Ok(true) => serve(rt, alloc, words, source, sink, &NoGate),
        Ok(false) => run(alloc, words, source, sink),
        Err(Mem) => Status::OutOfMemory,
    }
}

fn end_without_words(kind: ErrorKind) -> End {
    match kind {
        ErrorKind::OutOfMemory => End::With(Status::OutOfMemory),
        _ => End::WithoutWords,
    }
}

fn number(end: End) -> u8 {
    match end {
        End::With(status) => status.number(),
        End::WithoutWords => 9,
    }
}

/// What a person is told of an end that standard output doesn't tell.
fn complaint(end: End) -> Option<&'static str> {
    match end {
        End::With(Status::ReadFault) => Some("lowfare: standard input can't be read"),
        End::With(Status::WriteFault) => Some("lowfare: standard output can't be written"),
        End::With(Status::OutOfMemory) => Some("lowfare: out of memory"),
        End::With(_) => None,
        End::WithoutWords => Some("lowfare: the command line can't be had from the system"),
    }
}
