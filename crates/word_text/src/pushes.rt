//! Words that are added to a growing text.
ghost use Rattle.std.specs.Prelude.{◌≡◌, ◌++◌, ◌∷◌, map, OnOk};
ghost use Rattle.std.specs.List.{join_with_byte};

use fare_law::Mem;

/// Adds the words, with the separator between each two.
pub fn push_joined(text: &mut Vec<u8>, separator: u8, words: &[&[u8]]) -> Result<(), Mem>
    ensures { OnOk result (text.new.items
        ≡ text.old.items ++ join_with_byte separator (map (λ w. w.now) words.now)) }
{
    let [first, rest @ ..] = words else {
        return Ok(());
    };
    text.extend_from_slice(first)?;
    for word in rest {
        push_word(text, separator, word)?;
    }
    Ok(())
}

/// Adds the separator and then the word.
pub fn push_word(text: &mut Vec<u8>, separator: u8, word: &[u8]) -> Result<(), Mem>
    ensures { OnOk result (text.new.items ≡ text.old.items ++ separator ∷ word.now) }
{
    text.push(separator)?;
    text.extend_from_slice(word)?;
    Ok(())
}
