//! What a call may lack.
ghost use Rattle.std.specs.Prelude.{◌≡◌};
ghost use Rattle.shop_book.specs.Made.{unmade_of};
ghost use Rattle.shop_book.specs.Told.{Fits, lack_number};
ghost use Rattle.shop_book.specs.declared.handles.lacks.Lack.TheVariants.{Memory as NoMemory};
ghost use Rattle.shop_book.specs.declared.handles.lacks.Unmade.TheVariants.{Lacking as IsLacking};

use fare_law::Mem;
use whole_case::{LoadFault, Refusal};

/// What is wanting: a book in the handle, room for a text of so many bytes, or memory.
#[derive(Drop)]
pub enum Lack {
    NoBook,
    TooLong,
    Memory,
}

/// Why a book isn't made.
#[derive(Drop)]
pub enum Unmade {
    Refused(Refusal),
    Lacking(Lack),
}

/// The most bytes that a text may have.
const MOST_BYTES: usize = 67_108_864;

impl From<Mem> for Lack {
    ghost from_gives = { λ _ lack. lack ≡ NoMemory };

    fn from(_mem: Mem) -> Lack {
        Lack::Memory
    }
}

impl From<LoadFault> for Unmade {
    ghost from_gives = { λ fault unmade. unmade ≡ unmade_of fault };

    fn from(fault: LoadFault) -> Unmade {
        match fault {
            LoadFault::Mem => Unmade::Lacking(Lack::Memory),
            LoadFault::Refused(why) => Unmade::Refused(why),
        }
    }
}

impl From<Lack> for Unmade {
    ghost from_gives = { λ lack unmade. unmade ≡ IsLacking lack };

    fn from(lack: Lack) -> Unmade {
        Unmade::Lacking(lack)
    }
}

/// The status of a call that lacks this.
pub fn status_of(lack: Lack) -> u32
    ensures { result ≡ lack_number lack }
{
    match lack {
        Lack::Memory => 5,
        Lack::TooLong => 8,
        Lack::NoBook => 16,
    }
}

/// That a text has at most 67,108,864 bytes.
pub fn fit(text: &[u8]) -> Result<(), Lack>
    ensures { Fits result text.now }
{
    if text.len() <= MOST_BYTES {
        Ok(())
    } else {
        Err(Lack::TooLong)
    }
}
