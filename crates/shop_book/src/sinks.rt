//! A sink in memory that grows.
ghost use Rattle.std.specs.Prelude.{◌≡◌, ◌+◌, ℕ, List as Items, [], Some, length};
ghost use Rattle.std.specs.Io.{WritesAtMost};
ghost use Rattle.std.specs.Io.KnownBytes.{WriteAppends};
ghost use Rattle.fare_io.specs.Counts.{CountsStalls, FailsWithCause};

use fare_io::{Failed, Sink};
use fare_law::List;
use std::alloc::Global;

/// A sink that takes each piece whole, and fails where memory is wanting.
#[derive(Drop)]
pub(crate) struct TextSink {
    text: Vec<u8>,
    faults: u64,
}

impl TextSink {
    /// An empty sink.
    pub(crate) fn new(alloc: Global) -> TextSink
        ensures { (result.text.items ≡ []) × (result.faults ≡ 0) }
    {
        TextSink {
            text: Vec::new(alloc),
            faults: 0,
        }
    }

    /// What it holds.
    pub(crate) fn into_text(self) -> List<u8>
        ensures { result ≡ self.text.items }
    {
        List::from_vec(self.text)
    }
}

impl Sink for TextSink {
    ghost held = { λ s. Some s.text.items };

    ghost faults = { λ s. s.faults };

    ghost stalls = { λ _. 0 };

    fn write(&mut self, piece: &[u8]) -> Result<usize, Failed>
        ensures bound { WritesAtMost result piece.now }
        ensures bytes { WriteAppends (Some self.old.text.items) (Some self.new.text.items) result piece.now }
        ensures cause { FailsWithCause self.old.faults self.new.faults result }
        ensures stall { CountsStalls 0 0 result (length piece.now) }
    {
        match self.text.extend_from_slice(piece) {
            Ok(()) => Ok(piece.len()),
            Err(_) => {
                self.faults = self.faults.saturating_add(1);
                Err(Failed)
            }
        }
    }
}
