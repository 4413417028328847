//! Single actions of compact text, read by the trees of their JSON.
ghost use Rattle.std.specs.Prelude.{◌≡◌, ◌≤◌, ◌++◌, ℕ, List, length, IfOk, IfSome, IsTrue};
ghost use Rattle.fare_law.specs.FilingLimits.{IsAction};
ghost use Rattle.fare_filing.specs.Compact.{Begins};

use crate::FilingFault;
use crate::actions::read_action;
use crate::values::action_value;
use fare_law::{Action, Mem};
use json_form::read_value;
use name_text::names_read_again;
use rule_text::names_stand_aside;
use std::alloc::Global;

/// The action that a text begins with, if that is the very text which is written for the action, and what
/// follows.
pub fn written_action<'a>(alloc: Global, text: &'a [u8]) -> Result<Option<(Action, &'a [u8])>, Mem>
    ensures action { IfOk result (λ found. IfSome found (λ p. Begins text.now p.0 p.1.now)) }
    ensures limits { IfOk result (λ found. IfSome found (λ p. IsAction p.0)) }
{
    let (piece, rest) = text.split_at(object_end(text));
    let Some(action) = spelled_action(alloc, piece)? else {
        return Ok(None);
    };
    if is_written_as(alloc, &action, piece)? {
        Ok(Some((action, rest)))
    } else {
        Ok(None)
    }
}

// The action that a text spells, if it spells one.
fn spelled_action(alloc: Global, text: &[u8]) -> Result<Option<Action>, Mem>
    ensures { IfOk result (λ found. IfSome found IsAction) }
{
    let Some(value) = read_value(alloc, text)? else {
        return Ok(None);
    };
    // Its number in the filing would tell where a fault is, and with a fault there is no action here.
    match read_action(alloc, &value, 1) {
        Ok(action) => Ok(Some(action)),
        Err(FilingFault::Mem) => Err(Mem),
        Err(_) => Ok(None),
    }
}

// Whether this is the text that is written for an action. Then it is read again as the action, and no
// other text has to be looked at.
fn is_written_as(alloc: Global, action: &Action, text: &[u8]) -> Result<bool, Mem>
    requires { IsAction action.now }
    ensures { IfOk result (λ same. IsTrue same → (rest : List ℕ) → Begins (text.now ++ rest) action.now rest) }
{
    names_read_again();
    names_stand_aside();
    let value = action_value(alloc, action)?;
    let written = value.to_vec(alloc)?;
    Ok(is_same(written.as_slice(), text))
}

fn is_same(text: &[u8], other: &[u8]) -> bool
    ensures { IsTrue result → text.now ≡ other.now }
{
    text == other
}

// Where the object that a text begins with ends, if no name or text in it has a brace.
fn object_end(text: &[u8]) -> usize
    ensures { result ≤ length text.now }
{
    let mut open = 0usize;
    for i in 0..text.len() {
        match text[i] {
            b'{' => open += 1,
            b'}' if open <= 1 => return i + 1,
            b'}' => open -= 1,
            _ => {}
        }
    }
    text.len()
}
