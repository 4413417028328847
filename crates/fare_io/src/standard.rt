//! A source and a sink over std's readers and writers.
ghost use Rattle.std.specs.Prelude.{◌≡◌, length};
ghost use Rattle.std.specs.Io.{ReadsAtMost, WritesAtMost};
ghost use Rattle.std.specs.Io.KnownBytes.{ReadConsumes, WriteAppends};
ghost use Rattle.fare_io.specs.Counts.{FailsWithCause, CountsFaults, CountsStalls};

use crate::{Failed, Sink, Source};
use std::io::{Read, Write};

/// A source over a reader, which counts the reads that fail.
#[derive(Drop)]
pub struct StdSource<R> {
    reader: R,
    faults: u64,
}

impl<R: Read> StdSource<R> {
    ghost use Rattle.fare_io.specs.Standard.{reader_of, read_faults};

    /// A source over a reader, which has failed no read.
    pub fn new(reader: R) -> StdSource<R>
        ensures reader { reader_of result ≡ reader }
        ensures faults { read_faults result ≡ 0 }
    {
        StdSource { reader, faults: 0 }
    }
}

impl<R: Read> Source for StdSource<R> {
    ghost use Rattle.fare_io.specs.Standard.{reader_of, read_faults};

    ghost left = { λ s. R.remaining (reader_of s) };

    ghost faults = { read_faults };

    fn read(&mut self, buf: &mut [u8]) -> Result<usize, Failed>
        ensures bound { ReadsAtMost result buf.new }
        ensures bytes { ReadConsumes (R.remaining (reader_of self.old)) (R.remaining (reader_of self.new)) result buf.new }
        ensures cause { FailsWithCause (read_faults self.old) (read_faults self.new) result }
        ensures counted { CountsFaults (read_faults self.old) (read_faults self.new) result }
    {
        match self.reader.read(buf) {
            Ok(count) => Ok(count),
            Err(_) => {
                self.faults = self.faults.saturating_add(1);
                Err(Failed)
            }
        }
    }
}

/// A sink over a writer, which counts the writes that fail and those that take nothing.
#[derive(Drop)]
pub struct StdSink<W> {
    writer: W,
    faults: u64,
    stalls: u64,
}

impl<W: Write> StdSink<W> {
    ghost use Rattle.fare_io.specs.Standard.{writer_of, write_faults, write_stalls};

    /// A sink over a writer, which has failed no write and has never stalled.
    pub fn new(writer: W) -> StdSink<W>
        ensures writer { writer_of result ≡ writer }
        ensures faults { write_faults result ≡ 0 }
        ensures stalls { write_stalls result ≡ 0 }
    {
        StdSink {
            writer,
            faults: 0,
            stalls: 0,
        }
    }
}

impl<W: Write> Sink for StdSink<W> {
    ghost use Rattle.fare_io.specs.Standard.{writer_of, write_faults, write_stalls};

    ghost held = { λ s. W.contents (writer_of s) };

    ghost faults = { write_faults };

    ghost stalls = { write_stalls };

    fn write(&mut self, piece: &[u8]) -> Result<usize, Failed>
        ensures bound { WritesAtMost result piece.now }
        ensures bytes { WriteAppends (W.contents (writer_of self.old)) (W.contents (writer_of self.new)) result piece.now }
        ensures cause { FailsWithCause (write_faults self.old) (write_faults self.new) result }
        ensures counted { CountsFaults (write_faults self.old) (write_faults self.new) result }
        ensures stall { CountsStalls (write_stalls self.old) (write_stalls self.new) result (length piece.now) }
    {
        match self.writer.write(piece) {
            Ok(count) => {
                if count == 0 && !piece.is_empty() {
                    self.stalls = self.stalls.saturating_add(1);
                }
                Ok(count)
            }
            Err(_) => {
                self.faults = self.faults.saturating_add(1);
                Err(Failed)
            }
        }
    }
}
