//! The names of a made case.
ghost use Rattle.std.specs.Prelude.{◌≡◌, ◌<◌};
ghost use Rattle.case_maker.specs.Names.{hub, numbered_basis};

/// Where the journey begins.
pub(crate) const HOME: [u8; 3] = *b"AAA";

/// Where it turns.
pub(crate) const AWAY: [u8; 3] = *b"BBB";

/// The day of the flights out.
pub(crate) const OUT_DATE: [u8; 10] = *b"2031-03-03";

/// The day of the flights back.
pub(crate) const BACK_DATE: [u8; 10] = *b"2031-03-10";

/// A hub's name: H and two letters that count it.
pub(crate) fn hub_name(i: u32) -> [u8; 3]
    requires { i < 100 }
    ensures { result ≡ hub i }
{
    [b'H', b'A' + (i / 26) as u8, b'A' + (i % 26) as u8]
}

/// The basis of a fare for the whole way out: B and three digits.
pub(crate) fn basis_name(j: u32) -> [u8; 4]
    requires { j < 1000 }
    ensures { result ≡ numbered_basis j }
{
    [
        b'B',
        b'0' + (j / 100) as u8,
        b'0' + (j / 10 % 10) as u8,
        b'0' + (j % 10) as u8,
    ]
}
