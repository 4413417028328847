//! Times of day as text.
ghost use Rattle.std.specs.Prelude.{◌≡◌, ◌<◌};
ghost use Rattle.market_time.specs.Clock.{time_text};
ghost use Rattle.market_time.specs.Digits.{digits_of};

/// A minute of the day as `HH:MM`.
pub(crate) fn clock_time(minute: u64) -> [u8; 5]
    requires { minute < 1440 }
    ensures { result ≡ time_text minute }
{
    let hour = (minute / 60) as u8;
    let past = (minute % 60) as u8;
    [
        b'0' + hour / 10,
        b'0' + hour % 10,
        b':',
        b'0' + past / 10,
        b'0' + past % 10,
    ]
}
