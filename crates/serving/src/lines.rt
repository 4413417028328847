//! The lines of a serving run's text.
ghost use Rattle.std.specs.Prelude.{◌≡◌, ◌++◌, IfOk, OnOk, string_bytes};
ghost use Rattle.serving.specs.Lines as Lines;
ghost use Rattle.whole_case.specs.Texts.{book_text};

use fare_law::{BookWhy, Mem};
use serve_desks::Filed;
use std::alloc::Global;

/// How many filings there are at the end.
pub(crate) fn history_line(alloc: Global, count: u32) -> Result<String, Mem>
    ensures { IfOk result (λ line. string_bytes line ≡ Lines.history_line count) }
{
    Ok(format!(in alloc; "history {count}\n")?)
}

/// The entry that is the filing of the case with the same number.
pub(crate) fn opening_line(alloc: Global, number: u32) -> Result<String, Mem>
    ensures { IfOk result (λ line. string_bytes line ≡ Lines.opening_line number) }
{
    Ok(format!(in alloc; "entry {number} filing {number}\n")?)
}

/// The entry that a later filing became, where it was accepted.
pub(crate) fn entry_line(alloc: Global, later: usize, how: Filed) -> Result<String, Mem>
    ensures { IfOk result (λ line. string_bytes line ≡ Lines.entry_line later how) }
{
    match how {
        Filed::Accepted { number } => Ok(format!(in alloc; "entry {number} later {later}\n")?),
        Filed::Refused(_) => Ok(String::new(alloc)),
    }
}

/// Why a later filing was refused, where it was.
pub(crate) fn refusal_line(alloc: Global, later: usize, how: Filed) -> Result<String, Mem>
    ensures { IfOk result (λ line. string_bytes line ≡ Lines.refusal_line later how) }
{
    match how {
        Filed::Accepted { .. } => Ok(String::new(alloc)),
        Filed::Refused(refused) => refused_line(alloc, later, refused.action, refused.why),
    }
}

fn refused_line(alloc: Global, later: usize, action: u32, why: BookWhy) -> Result<String, Mem>
    ensures { IfOk result (λ line. string_bytes line ≡ Lines.refused_line later action why) }
{
    let why = why_text(why);
    Ok(format!(in alloc; "later {later} refused action {action} {why}\n")?)
}

/// The reply to the search at a line of the script.
pub(crate) fn reply_line(alloc: Global, line: usize, desk: u32, version: u32) -> Result<String, Mem>
    ensures { IfOk result (λ text. string_bytes text ≡ Lines.reply_line line desk version) }
{
    Ok(format!(in alloc; "reply {line} desk {desk} version {version}\n")?)
}

/// Why a book doesn't take an action.
fn why_text(why: BookWhy) -> &'static str
    ensures { result.now ≡ book_text why }
{
    match why {
        BookWhy::SamePlace => "SamePlace",
        BookWhy::OddRound => "OddRound",
        BookWhy::NoRule => "NoRule",
        BookWhy::RuleInUse => "RuleInUse",
        BookWhy::NoFare => "NoFare",
        BookWhy::Limit => "Limit",
        BookWhy::NoSeats => "NoSeats",
    }
}
