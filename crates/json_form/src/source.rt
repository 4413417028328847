//! The value of a text.
ghost use Rattle.std.specs.Prelude.{◌≡◌, IfOk, option_map};
ghost use Rattle.serde_json.specs.View.{view};
ghost use Rattle.json_form.specs.Spelled.{spelled};

use fare_law::Mem;
use serde_json::Value;
use std::alloc::Global;

#[tactic(auto, using(crate::proofs::SpelledLemmas::spelled_some, crate::proofs::SpelledLemmas::spelled_none))]
/// The value that the bytes spell as a JSON text, or `None` where `serde_json` reads none.
pub fn read_value(alloc: Global, bytes: &[u8]) -> Result<Option<Value>, Mem>
    ensures { IfOk result (λ value. option_map view value ≡ spelled bytes.now) }
{
    match Value::from_slice(alloc, bytes) {
        Ok(value) => Ok(Some(value)),
        Err(error) => {
            if error.is_memory() {
                Err(Mem)
            } else {
                Ok(None)
            }
        }
    }
}
