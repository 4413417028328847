//! Parsing the words with `clap`: one command without help and version, whose first argument is the command's name.
ghost use Rattle.std.specs.Prelude.{◌≡◌, map, false, IfOk, string_bytes};
ghost use Rattle.clap.specs.Words.{app_of, found_of, new_rule, rule_of, with_rule};
ghost use Rattle.program_words.specs.Parser.{IsArg, bare, flag, option, parser};
ghost use Rattle.program_words.specs.Texts.{AreFirst, Gives};

use crate::faults::WordsFault;
use crate::given::Given;
use clap::{Arg, ArgAction, ArgMatches, Command};
use std::alloc::{AllocError, Global};

/// The command's name, which stands alone.
fn name<'a>(alloc: Global, id: &'a str) -> Arg<'a>
    ensures { IsArg (new_rule id.now) result }
{
    Arg::new(alloc, id)
}

/// An option with a value.
fn option<'a>(alloc: Global, id: &'a str) -> Arg<'a>
    ensures { IsArg (option id.now) result }
{
    Arg::new(alloc, id).long(id)
}

/// An option without one.
fn flag<'a>(alloc: Global, id: &'a str) -> Arg<'a>
    ensures { IsArg (flag id.now) result }
{
    Arg::new(alloc, id).long(id).action(ArgAction::SetTrue)
}

/// The parser without its arguments.
fn bare<'a>(alloc: Global) -> Command<'a>
    ensures { app_of result ≡ bare }
{
    Command::new(alloc, "lowfare")
        .no_binary_name(true)
        .disable_help_flag(true)
        .disable_version_flag(true)
}

fn add<'a>(parser: Command<'a>, arg: Arg<'a>) -> Result<Command<'a>, AllocError>
    requires { arg.global ≡ false }
    ensures { IfOk result (λ p. app_of p ≡ with_rule (app_of parser.entry) (rule_of arg.entry)) }
{
    parser.arg(arg)
}

/// The parser of the program's words.
fn parser<'a>(alloc: Global) -> Result<Command<'a>, AllocError>
    ensures { IfOk result (λ p. app_of p ≡ parser) }
{
    let mut parser = add(bare(alloc), name(alloc, "command"))?;
    parser = add(parser, option(alloc, "best"))?;
    parser = add(parser, option(alloc, "budget"))?;
    parser = add(parser, option(alloc, "at"))?;
    parser = add(parser, option(alloc, "seed"))?;
    parser = add(parser, option(alloc, "size"))?;
    parser = add(parser, option(alloc, "outs"))?;
    parser = add(parser, option(alloc, "backs"))?;
    add(parser, flag(alloc, "summary"))
}

/// What the words give, or why they give nothing.
pub(crate) fn given_texts<'a>(alloc: Global, words: &'a [String]) -> Result<Given<'a>, WordsFault>
    ensures { Gives result (map string_bytes words.now) }
{
    let matches = match parser(alloc)?.try_get_matches_from(words) {
        Ok(matches) => matches,
        Err(error) => return Err(WordsFault::of(&error)),
    };
    Ok(first_texts(&matches))
}

/// The first text of each.
fn first_texts<'a>(matches: &ArgMatches<'a>) -> Given<'a>
    ensures { AreFirst (found_of matches.now) result }
{
    Given {
        command: matches.get_str("command"),
        best: matches.get_str("best"),
        budget: matches.get_str("budget"),
        at: matches.get_str("at"),
        seed: matches.get_str("seed"),
        size: matches.get_str("size"),
        outs: matches.get_str("outs"),
        backs: matches.get_str("backs"),
        summary: matches.get_str("summary"),
    }
}
