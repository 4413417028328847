//! The text of a refusal.
ghost use Rattle.std.specs.Prelude.{◌≡◌, ◌++◌, codes, IfOk, string_bytes};
ghost use Rattle.whole_case.specs.Texts as Texts;

use crate::{Reason, Refusal, RuleWhy};
use fare_law::{BookWhy, Mem, Why};
use std::alloc::Global;

/// The line that is printed for a refusal: `refused`, the line, the reason, and a line feed.
pub fn refusal_text(alloc: Global, refusal: &Refusal) -> Result<String, Mem>
    ensures { IfOk result (λ text. string_bytes text ≡ Texts.refusal_text refusal.now) }
{
    let line = refusal.line;
    let reason = reason_text(alloc, refusal.reason)?;
    Ok(format!(in alloc; "refused {line} {reason}\n")?)
}

/// The text of a reason.
fn reason_text(alloc: Global, reason: Reason) -> Result<String, Mem>
    ensures { IfOk result (λ text. string_bytes text ≡ Texts.reason_text reason) }
{
    match reason {
        Reason::NoEnd => name(alloc, "NoEnd"),
        Reason::UnknownSection => name(alloc, "UnknownSection"),
        Reason::Order => name(alloc, "Order"),
        Reason::BadRow { column } => Ok(format!(in alloc; "BadRow column {column}")?),
        Reason::TooMany => name(alloc, "TooMany"),
        Reason::AfterEnd => name(alloc, "AfterEnd"),
        Reason::PlaceTwice => name(alloc, "PlaceTwice"),
        Reason::UnknownPlace => name(alloc, "UnknownPlace"),
        Reason::SamePlace => name(alloc, "SamePlace"),
        Reason::BadPeriod => name(alloc, "BadPeriod"),
        Reason::ArrivesBefore => name(alloc, "ArrivesBefore"),
        Reason::Twice => name(alloc, "Twice"),
        Reason::Syntax => name(alloc, "Syntax"),
        Reason::Shape => name(alloc, "Shape"),
        Reason::ActionShape { action } => action_text(alloc, action, "Shape"),
        Reason::ActionRule { action, why } => action_text(alloc, action, rule_text(why)),
        Reason::ActionRefused { action, why } => action_text(alloc, action, book_text(why)),
        Reason::BadRequest(why) => request_text(alloc, why),
        Reason::NotTwo => name(alloc, "NotTwo"),
        Reason::Span => name(alloc, "Span"),
        Reason::Ticket => name(alloc, "Ticket"),
        Reason::Script => name(alloc, "Script"),
        Reason::Count => name(alloc, "Count"),
        Reason::NoVersion => name(alloc, "NoVersion"),
    }
}

fn name(alloc: Global, name: &str) -> Result<String, Mem>
    ensures { IfOk result (λ text. string_bytes text ≡ name.now) }
{
    Ok(String::from_str(alloc, name)?)
}

/// An action by its number, and what is wrong with it.
fn action_text(alloc: Global, action: u32, why: &str) -> Result<String, Mem>
    ensures { IfOk result (λ text. string_bytes text ≡ Texts.action_text action why.now) }
{
    Ok(format!(in alloc; "action {action} {why}")?)
}

/// What is wrong with a rule.
fn rule_text(why: RuleWhy) -> &'static str
    ensures { result.now ≡ codes "Rule " ++ Texts.rule_text why }
{
    match why {
        RuleWhy::Missing => "Rule Missing",
        RuleWhy::Unknown => "Rule Unknown",
        RuleWhy::Range => "Rule Range",
    }
}

/// Why a book doesn't take an action.
fn book_text(why: BookWhy) -> &'static str
    ensures { result.now ≡ Texts.book_text why }
{
    match why {
        BookWhy::SamePlace => "SamePlace",
        BookWhy::OddRound => "OddRound",
        BookWhy::NoRule => "NoRule",
        BookWhy::RuleInUse => "RuleInUse",
        BookWhy::NoFare => "NoFare",
        BookWhy::Limit => "Limit",
        BookWhy::NoSeats => "NoSeats",
    }
}

/// Why a request is refused.
fn request_text(alloc: Global, why: Why) -> Result<String, Mem>
    ensures { IfOk result (λ text. string_bytes text ≡ codes "BadRequest " ++ Texts.request_text why) }
{
    let why = request_name(why);
    Ok(format!(in alloc; "BadRequest {why}")?)
}

fn request_name(why: Why) -> &'static str
    ensures { result.now ≡ Texts.request_text why }
{
    match why {
        Why::Slices => "Slices",
        Why::Party => "Party",
        Why::Best => "Best",
        Why::Window => "Window",
        Why::SamePlace => "SamePlace",
        Why::UnknownPlace => "UnknownPlace",
    }
}
