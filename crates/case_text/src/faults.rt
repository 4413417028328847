//! Why a line is no row, and why a text is no case.
ghost use Rattle.std.specs.Prelude.{◌≡◌};
ghost use Rattle.case_text.specs.declared.faults.CaseFault.TheVariants.{Mem as OutOfMemory};

use fare_law::Mem;

/// The first column that isn't of its form, counted from 1; 0 where the line isn't plain or has
/// another count of columns. Or want of memory.
#[derive(Clone, Copy, PartialEq, Eq, Debug)]
pub enum RowFault {
    BadColumn(u32),
    Mem,
}

/// Why a text is no case: the first fault in the order of the lines, with its line, counted from
/// 1. Of several faults of one line the first of these decides, and a line after `#end` has no
/// other fault than `AfterEnd`.
#[derive(Clone, Copy, PartialEq, Eq, Debug)]
pub enum CaseFault {
    /// The line that would follow the last one, where `#end` is missing.
    NoEnd { line: u32 },
    /// A header of no kind of case.
    UnknownSection { line: u32 },
    /// A header that isn't the one due, a line before the first header, or the header after a
    /// `#request` that needs a line and has none.
    Order { line: u32 },
    /// A row with a column that isn't of its form, as in `RowFault`.
    BadRow { line: u32, column: u32 },
    /// The first line past the limit of its section.
    TooMany { line: u32 },
    /// A line after `#end` that isn't empty.
    AfterEnd { line: u32 },
    /// Memory ran out.
    Mem,
}

impl From<Mem> for CaseFault {
    ghost from_gives = { λ _ fault. fault ≡ OutOfMemory };

    fn from(_mem: Mem) -> CaseFault {
        CaseFault::Mem
    }
}
