//! The store of versions: two copies of an edition under one rule. Readers take the one while the writer changes
//! the other.
ghost use Rattle.std.specs.Prelude.{◌≡◌, [], ◌∷◌, false, Some, IsTrue};
ghost use Rattle.fare_versions.specs.Published.{Grows};
ghost use Rattle.fare_versions.specs.Writing.{last_seen, pending, shown};

use crate::edition::Edition;
use atomic_table::{Join, Split};
use crossbeam_utils::Backoff;
use crossbeam_utils::rule::{Outcome, Protocol};
use left_right::reader::Reader;
use left_right::writer::Writer;
use std::sync::Wait;

/// What is published only grows.
pub struct Growing;

impl Protocol<Edition, Option<Edition>> for Growing {
    ghost use Rattle.std.specs.Prelude.{None};
    ghost use Rattle.fare_versions.specs.Growing.{OnlyGrows};

    ghost holds = { OnlyGrows };

    ghost first = { None };
}

/// A step after which one has seen what is published.
pub struct Sees;

impl Outcome<Edition, Option<Edition>> for Sees {
    ghost use Rattle.fare_versions.specs.Growing.{Saw};

    ghost then = { Saw };
}

/// What the writer has seen, for a new reader.
pub struct Shares;

impl Split<Option<Edition>> for Shares {
    ghost left = { λ v. v };

    ghost right = { λ v. v };
}

impl Join<Option<Edition>> for Shares {
    ghost use Rattle.std.specs.Prelude.{None};

    ghost both = { λ v w. w };

    ghost spent = { None };
}

pub type EditionReader = Reader<Edition, Option<Edition>, Growing>;

pub type EditionWriter = Writer<Edition, Edition, Option<Edition>, Growing>;

/// Publishes an edition. Where memory is wanting it is tried again until there is some: what was filed stands in the
/// history by then, and can't be taken back. Since `begin` made the room, the first try does it; no clause says so.
pub fn publish_at_last<R: Wait>(rt: &R, writer: EditionWriter, edition: Edition) -> EditionWriter
    requires empty { pending writer ≡ [] }
    requires later { Grows (shown writer) edition }
    ensures shown { shown result ≡ edition }
    ensures pending { pending result ≡ [] }
{
    let mut writer = append(rt, writer, edition);
    let backoff = Backoff::new();
    for _ in rt.forever() {
        let (next, answer) = writer.publish_as::<Sees, R>(rt);
        writer = next;
        if answer.is_ok() {
            return writer;
        }
        backoff.snooze();
    }
    unreachable!()
}

/// Puts an edition behind what is published, likewise.
fn append<R: Wait>(rt: &R, mut writer: EditionWriter, mut edition: Edition) -> EditionWriter
    requires { pending writer ≡ [] }
    ensures shown { shown result ≡ shown writer }
    ensures pending { pending result ≡ edition ∷ [] }
{
    let backoff = Backoff::new();
    for _ in rt.forever() {
        match writer.append(edition) {
            Ok(()) => return writer,
            Err(back) => edition = back,
        }
        backoff.snooze();
    }
    unreachable!()
}

/// Publishes an edition, where there is memory for it, and says whether it did.
pub fn publish<R: Wait>(
    rt: &R,
    mut writer: EditionWriter,
    edition: Edition,
) -> (EditionWriter, bool)
    requires empty { pending writer ≡ [] }
    requires later { Grows (shown writer) edition }
    ensures shown { IsTrue result.1 → shown result.0 ≡ edition }
    ensures pending { IsTrue result.1 → pending result.0 ≡ [] }
    ensures seen { IsTrue result.1 → last_seen result.0 ≡ Some edition }
    ensures same { result.1 ≡ false → shown result.0 ≡ shown writer }
{
    let Ok(()) = writer.append(edition) else {
        return (writer, false);
    };
    let (writer, answer) = writer.publish_as::<Sees, R>(rt);
    (writer, answer.is_ok())
}
