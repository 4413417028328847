//! The history at the head of a serving run's text.
ghost use Rattle.std.specs.Prelude.{◌≡◌, ◌++◌, length, OnOk};
ghost use Rattle.serving.specs.Lines.{each_line, entry_line as entry_text, history_line as history_words, history_text, opening_line as opening_text, opening_lines, refusal_line as refusal_text};

use crate::lines::{entry_line, history_line, opening_line, refusal_line};
use fare_law::Mem;
use serve_desks::Filed;
use std::alloc::Global;

/// Adds the history: of so many opening filings, of later ones that were judged so, and so many in all.
pub(crate) fn push_history(
    alloc: Global,
    text: &mut Vec<u8>,
    opening: u32,
    filed: &[Filed],
    count: u32,
) -> Result<(), Mem>
    ensures { OnOk result (text.new.items ≡ text.old.items ++ history_text opening filed.now count) }
{
    push_count(alloc, text, count)?;
    push_opening(alloc, text, opening)?;
    push_entries(alloc, text, filed)?;
    push_refusals(alloc, text, filed)?;
    Ok(())
}

/// Adds a line at the end of a text.
pub(crate) fn push_line(text: &mut Vec<u8>, line: &str) -> Result<(), Mem>
    ensures { OnOk result (text.new.items ≡ text.old.items ++ line.now) }
{
    text.extend_from_slice(line.as_bytes())?;
    Ok(())
}

/// Adds the line that counts the filings.
fn push_count(alloc: Global, text: &mut Vec<u8>, count: u32) -> Result<(), Mem>
    ensures { OnOk result (text.new.items ≡ text.old.items ++ history_words count) }
{
    let line = history_line(alloc, count)?;
    push_line(text, &line)
}

/// Adds the lines of the opening filings.
fn push_opening(alloc: Global, text: &mut Vec<u8>, opening: u32) -> Result<(), Mem>
    ensures { OnOk result (text.new.items ≡ text.old.items ++ opening_lines opening) }
{
    for before in 0..opening {
        push_opening_entry(alloc, text, before + 1)?;
    }
    Ok(())
}

fn push_opening_entry(alloc: Global, text: &mut Vec<u8>, number: u32) -> Result<(), Mem>
    ensures { OnOk result (text.new.items ≡ text.old.items ++ opening_text number) }
{
    let line = opening_line(alloc, number)?;
    push_line(text, &line)
}

/// Adds the lines of the later filings that were accepted.
fn push_entries(alloc: Global, text: &mut Vec<u8>, filed: &[Filed]) -> Result<(), Mem>
    ensures { OnOk result (text.new.items ≡ text.old.items ++ each_line entry_text 1 filed.now) }
{
    for (at, how) in filed.iter().enumerate() {
        push_entry(alloc, text, at + 1, *how)?;
    }
    Ok(())
}

fn push_entry(alloc: Global, text: &mut Vec<u8>, later: usize, how: Filed) -> Result<(), Mem>
    ensures { OnOk result (text.new.items ≡ text.old.items ++ entry_text later how) }
{
    let line = entry_line(alloc, later, how)?;
    push_line(text, &line)
}

/// Adds the lines of those that were refused.
fn push_refusals(alloc: Global, text: &mut Vec<u8>, filed: &[Filed]) -> Result<(), Mem>
    ensures { OnOk result (text.new.items ≡ text.old.items ++ each_line refusal_text 1 filed.now) }
{
    for (at, how) in filed.iter().enumerate() {
        push_refusal(alloc, text, at + 1, *how)?;
    }
    Ok(())
}

fn push_refusal(alloc: Global, text: &mut Vec<u8>, later: usize, how: Filed) -> Result<(), Mem>
    ensures { OnOk result (text.new.items ≡ text.old.items ++ refusal_text later how) }
{
    let line = refusal_line(alloc, later, how)?;
    push_line(text, &line)
}
