//! A command of the program over bytes in memory.
ghost use Rattle.std.specs.Prelude.{map, string_bytes, IfOk};
ghost use Rattle.shop_book.specs.Runs.{Ran};

use crate::replies::Replied;
use crate::sinks::TextSink;
use fare_io::MemSource;
use fare_law::{List, Mem};
use lowfare::{Outcome, Status, run};
use std::alloc::Global;

/// What the command that the words ask for makes of the input: the program's status, with the text that the program
/// would write. It carries all commands but `serve`, whose words are none of these.
pub fn run_over(alloc: Global, words: &[String], input: &[u8]) -> Replied
    ensures { IfOk result (λ r. Ran r.status (map string_bytes words.now) input.now r.text) }
{
    let mut source = MemSource::new(List::from_vec(input.to_vec(alloc)?));
    let mut sink = TextSink::new(alloc);
    match run(alloc, words, &mut source, &mut sink) {
        Status::OutOfMemory | Status::WriteFault => Err(Mem),
        status => Ok(Outcome {
            status,
            text: sink.into_text(),
        }),
    }
}
