//! Times of the day as text.
ghost use Rattle.std.specs.Prelude.{◌≡◌, ◌+◌, ◌/◌, ◌%◌, ◌<◌};
ghost use Rattle.std.specs.Str.{IsAscii};
ghost use Rattle.market_time.specs.Clock.{time_text};
ghost use Rattle.market_time.specs.Digits.{digits_of};

/// The text `HH:MM` of a minute of the day.
#[tactic(auto, using(crate::proofs::TextLemmas::minute_is_ascii))]
pub fn minute_text(minute: u16) -> [u8; 5]
    requires { minute < 1440 }
    ensures minute { result ≡ time_text minute }
    ensures ascii { IsAscii result }
{
    let hour = (minute / 60) as u8;
    let minute = (minute % 60) as u8;
    [
        b'0' + hour / 10,
        b'0' + hour % 10,
        b':',
        b'0' + minute / 10,
        b'0' + minute % 10,
    ]
}
