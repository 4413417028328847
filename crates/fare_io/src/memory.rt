//! A source and a sink in memory, which never fail.
ghost use Rattle.std.specs.Prelude.{◌≡◌, ◌<◌, ◌≤◌, ◌-◌, ◌+◌, ◌++◌, ℕ, List, [], Some, take, drop, length, min, Ok, IfOk, OnOk, vec_len, vec_capacity};
ghost use Rattle.std.specs.Io.{ReadsAtMost, WritesAtMost};
ghost use Rattle.std.specs.Io.KnownBytes.{ReadConsumes, WriteAppends};
ghost use Rattle.fare_io.specs.Counts.{FailsWithCause, CountsStalls};
ghost use Rattle.fare_io.specs.Memory.{Space, free_of};
ghost use Rattle.fare_io.specs.declared.source.Failed.{Failed};

use crate::{Failed, Sink, Source};
use fare_law::{List as Items, Mem};
use std::alloc::Global;
use std::marker::Model;

/// A source that gives the bytes of a list and never fails.
#[derive(Drop)]
pub struct MemSource {
    bytes: Items<u8>,
    at: usize,
}

impl Model for MemSource {
    ghost Value = { List ℕ };

    ghost view = { λ s. drop s.at s.bytes };

    ghost invariant = { λ s. s.at ≤ length s.bytes };
}

impl MemSource {
    /// A source of these bytes.
    pub fn new(bytes: Items<u8>) -> MemSource
        ensures { result ≡ bytes }
    {
        MemSource { bytes, at: 0 }
    }
}

#[tactic(auto, using(crate::proofs::Known::read_steps))]
impl Source for MemSource {
    ghost left = { λ s. Some s };

    ghost faults = { λ _. 0 };

    fn read(&mut self, buf: &mut [u8]) -> Result<usize, Failed>
        ensures bound { ReadsAtMost result buf.new }
        ensures bytes { ReadConsumes (Some self.old) (Some self.new) result buf.new }
        ensures cause { FailsWithCause 0 0 result }
        ensures count { result ≡ Ok (min (length self.old) (length buf.old)) }
    {
        let count = copy_front(&self.bytes.as_slice()[self.at..], buf);
        self.at += count;
        Ok(count)
    }
}

// Copies as many bytes as there are and as the buffer has room for.
fn copy_front(from: &[u8], to: &mut [u8]) -> usize
    ensures count { result ≡ min (length from.now) (length to.old) }
    ensures front { take result to.new ≡ take result from.now }
{
    let count = from.len().min(to.len());
    to[..count].copy_from_slice(&from[..count]);
    count
}

/// A sink that holds at most so many bytes and never fails.
#[derive(Drop)]
pub struct MemSink {
    held: Vec<u8>,
    room: u32,
    stalls: u64,
}

impl Model for MemSink {
    ghost Value = { Space };

    ghost view = { λ s. record { held = s.held.items; room = s.room; stalls = s.stalls } };

    ghost invariant = { λ s. (s.room ≤ vec_capacity s.held) × (vec_len s.held ≤ s.room) };
}

impl MemSink {
    /// An empty sink with room for so many bytes, which is taken now.
    pub fn new(alloc: Global, room: u32) -> Result<MemSink, Mem>
        ensures { IfOk result (λ sink. sink ≡ record { held = []; room = room; stalls = 0 }) }
    {
        let held = Vec::with_capacity(alloc, room as usize)?;
        Ok(MemSink {
            held,
            room,
            stalls: 0,
        })
    }

    /// The bytes that it holds.
    pub fn as_slice(&self) -> &[u8]
        ensures { result.now ≡ self.now.held }
    {
        self.held.as_slice()
    }

    // Takes as many bytes of the piece as still fit, and at most this many.
    pub(crate) fn take(&mut self, piece: &[u8], most: usize) -> usize
        ensures count { result ≡ min (min most (free_of self.old)) (length piece.now) }
        ensures held { self.new.held ≡ self.old.held ++ take result piece.now }
        ensures stall { CountsStalls {E = Failed} self.old.stalls self.new.stalls (Ok result) (length piece.now) }
        ensures room { self.new.room ≡ self.old.room }
    {
        let room = self.room as usize - self.held.len();
        let count = most.min(room).min(piece.len());
        if count == 0 && !piece.is_empty() {
            self.stalls = self.stalls.saturating_add(1);
        }
        match self.held.extend_from_slice(&piece[..count]) {
            Ok(()) => count,
            Err(_) => unreachable!(),
        }
    }
}

impl Sink for MemSink {
    ghost held = { λ s. Some s.held };

    ghost faults = { λ _. 0 };

    ghost stalls = { λ s. s.stalls };

    fn write(&mut self, piece: &[u8]) -> Result<usize, Failed>
        ensures bound { WritesAtMost result piece.now }
        ensures bytes { WriteAppends (Some self.old.held) (Some self.new.held) result piece.now }
        ensures cause { FailsWithCause 0 0 result }
        ensures stall { CountsStalls self.old.stalls self.new.stalls result (length piece.now) }
        ensures count { result ≡ Ok (min (free_of self.old) (length piece.now)) }
        ensures room { self.new.room ≡ self.old.room }
    {
        Ok(self.take(piece, piece.len()))
    }
}
