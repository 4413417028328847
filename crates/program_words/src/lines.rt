//! Which command line the words are.
ghost use Rattle.std.specs.Prelude.{◌≡◌, map, string_bytes};
ghost use Rattle.program_words.specs.Lines as Lines;
ghost use Rattle.program_words.specs.Lines.{ReadsLine};
ghost use Rattle.program_words.specs.Texts.{text_of, texts_of};

use crate::commands::Command;
use crate::faults::WordsFault;
use crate::given::Given;
use crate::numbers::{defaulted, optional, required};
use crate::parsing::given_texts;
use crate::{DEFAULT_BUDGET, LAST_VERSION, MOST_BUDGET};
use fare_law::MOST_TICKETS;
use std::alloc::Global;

/// The command line that the words are: a command and its options, each at most once, before or after it.
///
/// An option is `--name value` or `--name=value`; after the word `--`, which may come once, words are no options. It
/// answers `Usage` exactly where the words are no command line, and `Mem` only for want of memory.
pub fn read_words(alloc: Global, words: &[String]) -> Result<Command, WordsFault>
    ensures { ReadsLine result (map string_bytes words.now) }
{
    let given = given_texts(alloc, words)?;
    command(&given).ok_or(WordsFault::Usage)
}

/// The command that the texts give.
fn command(given: &Given) -> Option<Command>
    ensures { result ≡ Lines.command_of (texts_of given.now) }
{
    match given.command? {
        "search" => search(given),
        "check" => check(given),
        "make" => make(given),
        "serve" => serve(given),
        "calendar" => calendar(given),
        "verdict" => verdict(given),
        _ => None,
    }
}

fn search(given: &Given) -> Option<Command>
    ensures { result ≡ Lines.search_of (texts_of given.now) }
{
    if is_asked(given.summary) || !are_absent(&[given.seed, given.size, given.outs, given.backs]) {
        return None;
    }
    let best = best(given.best)?;
    let budget = budget(given.budget)?;
    let at = at(given.at)?;
    Some(Command::Search { best, budget, at })
}

fn check(given: &Given) -> Option<Command>
    ensures { result ≡ Lines.check_of (texts_of given.now) }
{
    let others = [
        given.budget,
        given.seed,
        given.size,
        given.outs,
        given.backs,
    ];
    if is_asked(given.summary) || !are_absent(&others) {
        return None;
    }
    let best = best(given.best)?;
    let at = at(given.at)?;
    Some(Command::Check { best, at })
}

fn make(given: &Given) -> Option<Command>
    ensures { result ≡ Lines.make_of (texts_of given.now) }
{
    let others = [given.best, given.budget, given.at, given.outs, given.backs];
    if !are_absent(&others) {
        return None;
    }
    let seed = required(given.seed, 0, 4_294_967_295)?;
    let size = required(given.size, 1, 100)? as u8;
    let is_summary = is_asked(given.summary);
    Some(Command::Make {
        seed,
        size,
        is_summary,
    })
}

fn serve(given: &Given) -> Option<Command>
    ensures { result ≡ Lines.serve_of (texts_of given.now) }
{
    let others = [given.at, given.seed, given.size, given.outs, given.backs];
    if is_asked(given.summary) || !are_absent(&others) {
        return None;
    }
    let best = best(given.best)?;
    let budget = budget(given.budget)?;
    Some(Command::Serve { best, budget })
}

fn calendar(given: &Given) -> Option<Command>
    ensures { result ≡ Lines.calendar_of (texts_of given.now) }
{
    if is_asked(given.summary) || !are_absent(&[given.best, given.seed, given.size]) {
        return None;
    }
    let outs = required(given.outs, 1, 31)? as u8;
    let backs = required(given.backs, 1, 31)? as u8;
    let budget = budget(given.budget)?;
    let at = at(given.at)?;
    Some(Command::Calendar {
        outs,
        backs,
        budget,
        at,
    })
}

fn verdict(given: &Given) -> Option<Command>
    ensures { result ≡ Lines.verdict_of (texts_of given.now) }
{
    let others = [
        given.best,
        given.budget,
        given.seed,
        given.size,
        given.outs,
        given.backs,
    ];
    if is_asked(given.summary) || !are_absent(&others) {
        return None;
    }
    let at = at(given.at)?;
    Some(Command::Verdict { at })
}

fn best(text: Option<&str>) -> Option<Option<u16>>
    ensures { result ≡ Lines.best_of (text_of text.entry) }
{
    match text {
        None => Some(None),
        Some(text) => Some(Some(required(Some(text), 1, MOST_TICKETS.into())? as u16)),
    }
}

fn budget(text: Option<&str>) -> Option<u32>
    ensures { result ≡ Lines.budget_of (text_of text.entry) }
{
    defaulted(text, 1, MOST_BUDGET, DEFAULT_BUDGET)
}

fn at(text: Option<&str>) -> Option<Option<u32>>
    ensures { result ≡ Lines.at_of (text_of text.entry) }
{
    optional(text, 0, LAST_VERSION)
}

/// Whether none of these options was given.
fn are_absent(options: &[Option<&str>]) -> bool
    ensures { result ≡ Lines.are_absent (map text_of options.now) }
{
    match options {
        [] => true,
        [option, others @ ..] => option.is_none() && are_absent(others),
    }
}

/// Whether the flag of this text was given.
fn is_asked(text: Option<&str>) -> bool
    ensures { result ≡ Lines.is_asked (text_of text.entry) }
{
    text == Some("true")
}
