//! A source and a sink that fail at listed calls.
ghost use Rattle.std.specs.Prelude.{◌≡◌, ◌↔◌, ℕ, List, [], Some, Ok, length, min, IfOk, OnOk, OnErr, IsErr, Contains};
ghost use Rattle.std.specs.Io.{ReadsAtMost, WritesAtMost};
ghost use Rattle.std.specs.Io.KnownBytes.{ReadConsumes, WriteAppends};
ghost use Rattle.fare_io.specs.Counts.{FailsWithCause, CountsStalls};
ghost use Rattle.fare_io.specs.Memory.{free_of};
ghost use Rattle.fare_io.specs.Failing.{Counted, FailingSource, FailingSink, FailsAsListed};

use crate::{Failed, MemSink, MemSource, Sink, Source};
use fare_law::{List as Items, Mem};
use std::alloc::Global;
use std::marker::Model;

// The calls that were made, and the numbers of those that fail.
#[derive(Drop)]
struct Calls {
    listed: Items<u32>,
    made: u64,
    faults: u64,
}

impl Model for Calls {
    ghost Value = { Counted };

    ghost view = { λ c. record { listed = c.listed; made = c.made; faults = c.faults } };
}

impl Calls {
    fn new(listed: Items<u32>) -> Calls
        ensures { result ≡ record { listed = listed; made = 0; faults = 0 } }
    {
        Calls {
            listed,
            made: 0,
            faults: 0,
        }
    }

    // Counts a call, which fails where its number is listed.
    fn next(&mut self) -> Result<(), Failed>
        ensures fails { FailsAsListed self.old self.new result }
        ensures cause { FailsWithCause self.old.faults self.new.faults result }
    {
        let number = self.made.saturating_add(1);
        self.made = number;
        if self
            .listed
            .as_slice()
            .iter()
            .any(|listed| u64::from(*listed) == number)
        {
            self.faults = self.faults.saturating_add(1);
            return Err(Failed);
        }
        Ok(())
    }
}

/// A source that gives the bytes of a list and fails at the calls with the listed numbers, counted
/// from 1.
#[derive(Drop)]
pub struct FailSource {
    bytes: MemSource,
    calls: Calls,
}

impl Model for FailSource {
    ghost Value = { FailingSource };

    ghost view = { λ s. record { left = s.bytes; calls = s.calls } };
}

impl FailSource {
    /// A source of these bytes that fails at these calls.
    pub fn new(bytes: Items<u8>, calls: Items<u32>) -> FailSource
        ensures { result ≡ record { left = bytes; calls = record { listed = calls; made = 0; faults = 0 } } }
    {
        FailSource {
            bytes: MemSource::new(bytes),
            calls: Calls::new(calls),
        }
    }
}

impl Source for FailSource {
    ghost left = { λ s. Some s.left };

    ghost faults = { λ s. s.calls.faults };

    fn read(&mut self, buf: &mut [u8]) -> Result<usize, Failed>
        ensures bound { ReadsAtMost result buf.new }
        ensures bytes { ReadConsumes (Some self.old.left) (Some self.new.left) result buf.new }
        ensures cause { FailsWithCause self.old.calls.faults self.new.calls.faults result }
        ensures fails { FailsAsListed self.old.calls self.new.calls result }
        ensures count { IfOk result (λ n. n ≡ min (length self.old.left) (length buf.old)) }
    {
        self.calls.next()?;
        self.bytes.read(buf)
    }
}

/// A sink that holds at most so many bytes, takes at most `step` bytes a call, and fails at the
/// calls with the listed numbers, counted from 1.
#[derive(Drop)]
pub struct FailSink {
    space: MemSink,
    step: u32,
    calls: Calls,
}

impl Model for FailSink {
    ghost Value = { FailingSink };

    ghost view = { λ s. record { space = s.space; step = s.step; calls = s.calls } };
}

impl FailSink {
    /// An empty sink with room for so many bytes, which is taken now.
    pub fn new(alloc: Global, room: u32, step: u32, calls: Items<u32>) -> Result<FailSink, Mem>
        ensures space { IfOk result (λ sink. sink.space ≡ record { held = []; room = room; stalls = 0 }) }
        ensures step { IfOk result (λ sink. sink.step ≡ step) }
        ensures calls { IfOk result (λ sink. sink.calls ≡ record { listed = calls; made = 0; faults = 0 }) }
    {
        Ok(FailSink {
            space: MemSink::new(alloc, room)?,
            step,
            calls: Calls::new(calls),
        })
    }

    /// The bytes that it holds.
    pub fn as_slice(&self) -> &[u8]
        ensures { result.now ≡ self.now.space.held }
    {
        self.space.as_slice()
    }
}

impl Sink for FailSink {
    ghost held = { λ s. Some s.space.held };

    ghost faults = { λ s. s.calls.faults };

    ghost stalls = { λ s. s.space.stalls };

    fn write(&mut self, piece: &[u8]) -> Result<usize, Failed>
        ensures bound { WritesAtMost result piece.now }
        ensures bytes { WriteAppends (Some self.old.space.held) (Some self.new.space.held) result piece.now }
        ensures cause { FailsWithCause self.old.calls.faults self.new.calls.faults result }
        ensures stall { CountsStalls self.old.space.stalls self.new.space.stalls result (length piece.now) }
        ensures fails { FailsAsListed self.old.calls self.new.calls result }
        ensures count { IfOk result (λ n. n ≡ min (min self.old.step (free_of self.old.space)) (length piece.now)) }
        ensures room { self.new.space.room ≡ self.old.space.room }
        ensures step { self.new.step ≡ self.old.step }
    {
        self.calls.next()?;
        Ok(self.space.take(piece, self.step as usize))
    }
}
