//! Words, cut and joined.
ghost use Rattle.std.specs.Prelude.{◌≡◌, ◌≤◌, ◌++◌, length, take, IfOk, OnOk};

use fare_law::{CODE_NUMBERS, Code, List, Mem};
use std::alloc::Global;

/// The first numbers of a word.
pub fn cut(word: List<u64>, length: usize) -> List<u64>
    ensures { result ≡ take length word }
{
    let mut numbers = word.into_vec();
    numbers.truncate(length);
    List::from_vec(numbers)
}

/// Puts a word after another.
pub fn append(word: &mut List<u64>, more: &List<u64>) -> Result<(), Mem>
    ensures { OnOk result (word.new ≡ word.old ++ more.now) }
{
    for number in more.as_slice() {
        word.push(*number)?;
    }
    Ok(())
}

/// One word and then another.
pub fn joined(alloc: Global, front: &List<u64>, more: &List<u64>) -> Result<List<u64>, Mem>
    ensures { IfOk result (λ word. word ≡ front.now ++ more.now) }
{
    let mut word = List::new(alloc);
    append(&mut word, front)?;
    append(&mut word, more)?;
    Ok(word)
}

/// A word of at most `CODE_NUMBERS` numbers, as an answer has it.
pub fn code(word: &List<u64>) -> Code
    requires { length word.now ≤ CODE_NUMBERS }
    ensures { result ≡ word.now }
{
    let mut code = Code::new();
    for number in word.as_slice() {
        code.push(*number);
    }
    code
}
