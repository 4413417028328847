//! Where a line stands.
ghost use Rattle.std.specs.Prelude.{◌≡◌, ◌+◌, ◌<◌, ◌^◌};
ghost use Rattle.case_text.specs.Entries as Entries;

use crate::contents::Entry;
use crate::headers::Header;

/// The last header before a line, if there is one, and how many lines stand between the two.
#[derive(Clone, Copy)]
pub struct Standing {
    pub under: Option<Header>,
    pub count: usize,
}

impl Standing {
    /// Where the first line stands.
    pub fn at_start() -> Standing
        ensures { result ≡ Entries.at_start }
    {
        Standing {
            under: None,
            count: 0,
        }
    }

    /// Where the line after this entry stands.
    pub fn moved(self, entry: &Entry<'_>) -> Standing
        requires { self.count + 1 < 2 ^ 64 }
        ensures { result ≡ Entries.moved self entry.now }
    {
        match entry {
            Entry::Opens(header, _) => Standing {
                under: Some(*header),
                count: 0,
            },
            _ => Standing {
                under: self.under,
                count: self.count + 1,
            },
        }
    }

    /// Whether the case has ended.
    pub fn is_over(self) -> bool
        ensures { result ≡ Entries.is_over self.under }
    {
        matches!(self.under, Some(Header::End))
    }
}
