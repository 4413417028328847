//! One run of a top call.
use crate::whole_runs::gates::{Holding, Plan};
use fare_io::{MemSink, MemSource, Sink, Source};
use fare_law::{List, Mem};
use lowfare::{Status, run, serve};
use std::alloc::Global;
use std::sync::Wait;
use std::thread::Threads;

/// Which call a run goes by.
#[derive(Clone, Copy)]
pub enum Call {
    Run,
    /// By a gate with this plan.
    Serve(Plan),
}

/// A command line, and the call that carries it.
#[derive(Drop)]
pub struct Command {
    pub call: Call,
    pub words: Vec<String>,
}

/// The command line of these words.
pub fn command_of(alloc: Global, call: Call, texts: &[&str]) -> Result<Command, Mem> {
    let mut words = Vec::new(alloc);
    for text in texts {
        words.push(String::from_str(alloc, *text)?)?;
    }
    Ok(Command { call, words })
}

/// How a run ended. What it promises is the proof's matter; here it counts what comes out.
pub fn ended<S: Source, K: Sink, R: Threads + Wait + Sync>(
    rt: &R,
    alloc: Global,
    command: &Command,
    source: &mut S,
    sink: &mut K,
) -> Status {
    let words = command.words.as_slice();
    match command.call {
        Call::Run => run(alloc, words, source, sink),
        Call::Serve(plan) => serve(rt, alloc, words, source, sink, &Holding::by(plan)),
    }
}

/// A list of these bytes.
pub fn listed(alloc: Global, bytes: &[u8]) -> Result<List<u8>, Mem> {
    Ok(List::from_vec(bytes.to_vec(alloc)?))
}

/// More than any of these runs writes.
const ROOM: u32 = 100_000;

/// How a run on these bytes ended, and the sink with what it wrote.
pub fn written<R: Threads + Wait + Sync>(
    rt: &R,
    alloc: Global,
    command: &Command,
    bytes: &[u8],
) -> Result<(Status, MemSink), Mem> {
    let mut source = MemSource::new(listed(alloc, bytes)?);
    let mut sink = MemSink::new(alloc, ROOM)?;
    let status = ended(rt, alloc, command, &mut source, &mut sink);
    Ok((status, sink))
}

/// How a serving run on these bytes by this gate ended, and the sink with what it wrote.
pub fn served<R: Threads + Wait + Sync>(
    rt: &R,
    alloc: Global,
    bytes: List<u8>,
    gate: &Holding,
) -> Result<(Status, MemSink), Mem> {
    let words = vec![in alloc; String::from_str(alloc, "serve")?]?;
    let mut source = MemSource::new(bytes);
    let mut sink = MemSink::new(alloc, ROOM)?;
    let status = serve(rt, alloc, words.as_slice(), &mut source, &mut sink, gate);
    Ok((status, sink))
}
