//! The program's commands over bytes in memory.
ghost use Rattle.std.specs.Prelude.{◌≡◌, map, string_bytes, IfOk};
ghost use Rattle.std.specs.Str.Lines.{lines};
ghost use Rattle.std.specs.Str.{IsUtf8};
ghost use Rattle.shop_book.specs.Held.{HoldsNothing};
ghost use Rattle.shop_book.specs.Told.{Finds, Replies};
ghost use Rattle.shop_book.specs.Runs.{Ran};

use crate::handles::Handle;
use crate::handles::lacks::Lack;
use crate::handles::texts::tell;
use crate::running::run_over;
use fare_law::Mem;
use lowfare::Outcome;
use std::alloc::{AllocError, Global};

/// The status of words that are no command line.
const USAGE: u32 = 2;

/// Runs the command that the words ask for, one word a line, over the input: the program's status, with the text that
/// the program would write. It carries all commands but `serve`. Words that aren't UTF-8 are no command line, and for
/// these there is no text. What `answer` held before is let go.
pub fn lowfare_run(alloc: Global, words: &[u8], input: &[u8], answer: &mut Handle) -> u32
    ensures words { IsUtf8 words.now → Replies (λ status text. Ran status (lines words.now) input.now text) ⊥ result answer.new }
    ensures others { (IsUtf8 words.now → ⊥) → (result ≡ 2) × HoldsNothing answer.new }
{
    match str::from_utf8(words) {
        Ok(words) => {
            let reply = run_words(alloc, words, input);
            tell(alloc, answer, reply)
        }
        Err(_) => {
            let _before = answer.take(alloc);
            USAGE
        }
    }
}

/// The reply to the command whose words are these lines.
fn run_words(alloc: Global, words: &str, input: &[u8]) -> Result<Outcome, Lack>
    ensures { Finds (λ status text. Ran status (lines words.now) input.now text) ⊥ result }
{
    let words = each_word(alloc, words)?;
    Ok(run_over(alloc, words.as_slice(), input)?)
}

/// The words, each with bytes of its own.
fn each_word(alloc: Global, words: &str) -> Result<Vec<String>, Mem>
    ensures { IfOk result (λ each. map string_bytes each.items ≡ lines words.now) }
{
    let found = lines_of(alloc, words)?;
    let mut each = Vec::new(alloc);
    for word in found.as_slice() {
        each.push(String::from_str(alloc, word)?)?;
    }
    Ok(each)
}

/// The lines of a text.
fn lines_of(alloc: Global, text: &str) -> Result<Vec<&str>, AllocError>
    ensures { IfOk result (λ found. map (λ line. line.now) found.items ≡ lines text.now) }
{
    text.lines().collect(alloc)
}
