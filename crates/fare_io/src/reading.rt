//! Reading to the end.
ghost use Rattle.std.specs.Prelude.{◌≡◌, ◌≢◌, ◌<◌, ◌≤◌, ◌+◌, length, vec_len, IfOk, IfErr, OnErr, OnOk, IsErrOf};
ghost use Rattle.std.specs.Io.{StartsWith, appended_bytes};
ghost use Rattle.std.specs.Io.KnownBytes.{Consumes, IsAtEnd};
ghost use Rattle.fare_io.specs.Counts.{Rose};
ghost use Rattle.fare_io.specs.Streams.{ReadsWhole, ReadsPast, GivesAtMost};
ghost use Rattle.fare_io.specs.declared.reading.InFault.TheVariants.{Mem};

use crate::Source;
use fare_law::List;
use std::alloc::{AllocError, Global};

/// Why an input wasn't read to its end.
#[derive(Clone, Copy, Debug, PartialEq, Eq)]
pub enum InFault {
    /// A read failed.
    ReadFault = 1,
    /// There are more bytes than the limit.
    TooLong = 2,
    /// Want of memory.
    Mem = 3,
}

impl From<AllocError> for InFault {
    ghost from_gives = { λ _ fault. fault ≡ Mem };

    fn from(_error: AllocError) -> InFault {
        InFault::Mem
    }
}

// How many bytes one read asks for at most.
const PIECE: usize = 65536;

/// All bytes up to the end, of which there may be at most `limit`. After a fault the bytes that were
/// read are gone.
#[tactic(auto, using(crate::proofs::Known::whole_steps))]
pub fn read_all<S: Source>(alloc: Global, source: &mut S, limit: usize) -> Result<List<u8>, InFault>
    ensures whole { IfOk result (ReadsWhole (S.left source.old) (S.left source.new)) }
    ensures fits { IfOk result (λ bytes. length bytes ≤ limit) }
    ensures long { IsErrOf result InFault.TooLong → ReadsPast (S.left source.old) (S.left source.new) limit }
    // Whatever the answer, no byte is read past the one that is too many.
    ensures gives { GivesAtMost (S.left source.old) (S.left source.new) (limit + 1) }

    ensures later { S.faults source.old ≤ S.faults source.new }
    ensures fault { IsErrOf result InFault.ReadFault → Rose (S.faults source.old) (S.faults source.new) }
{
    let mut piece = [0; PIECE];
    let mut bytes = Vec::new(alloc);
    while bytes.len() <= limit {
        let room = limit - bytes.len();
        let count = read_piece(source, &mut bytes, &mut piece, room)?;
        if count == 0 {
            return Ok(List::from_vec(bytes));
        }
    }
    Err(InFault::TooLong)
}

// Reads a piece, of at most one byte more than `room`, and appends it.
#[tactic(auto, using(crate::proofs::Known::whole_steps))]
fn read_piece<S: Source>(
    source: &mut S,
    bytes: &mut Vec<u8>,
    piece: &mut [u8],
    room: usize,
) -> Result<usize, InFault>
    requires { 0 < length piece.old }
    ensures grows { IfOk result (λ count. vec_len bytes.new ≡ vec_len bytes.old + count) }
    ensures fits { IfOk result (λ count. count ≤ room + 1) }
    ensures appends { StartsWith bytes.new.items bytes.old.items }
    ensures piece { OnOk result (Consumes (S.left source.old) (S.left source.new) (appended_bytes bytes.old.items bytes.new.items)) }
    ensures gives { GivesAtMost (S.left source.old) (S.left source.new) (room + 1) }
    ensures end { IfOk result (λ count. count ≡ 0 → IsAtEnd (S.left source.new)) }
    ensures later { S.faults source.old ≤ S.faults source.new }
    ensures fault { IsErrOf result InFault.ReadFault → Rose (S.faults source.old) (S.faults source.new) }
    ensures short { IfErr result (λ fault. fault ≢ InFault.TooLong) }
{
    let most = room.saturating_add(1).min(piece.len());
    match source.read(&mut piece[..most]) {
        Ok(count) => {
            bytes.extend_from_slice(&piece[..count])?;
            Ok(count)
        }
        Err(_) => Err(InFault::ReadFault),
    }
}
