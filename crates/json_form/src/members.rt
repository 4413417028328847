//! The members of an object, by their names.
ghost use Rattle.std.specs.Prelude.{◌≡◌, option_map, IfSome};
ghost use Rattle.serde_json.specs.View.{view, items_view};
ghost use Rattle.std.specs.Int.{IsInRange};
ghost use Rattle.fare_law.specs.Names.{IsBasis, IsCarrier};
ghost use Rattle.market_time.specs.Dates.{IsInCentury};
ghost use Rattle.json_form.specs.Members as Members;
ghost use Rattle.fare_law.specs.Limits.{IsClass, IsPlace};

use fare_law::{Basis, Carrier, Class, Place};
use market_time::day_of;
use name_text::{basis_of, carrier_of, class_of, place_of};
use serde_json::Value;

/// Whether the value is an object of so many members. An object has each name once: where `count`
/// names are there, it has no others.
#[tactic(auto, using(crate::proofs::MemberLemmas::count_members))]
pub fn has_members(value: &Value, count: usize) -> bool
    ensures { result ≡ Members.has_members count (view value.now) }
{
    match value.as_object() {
        Some(members) => members.len() == count,
        None => false,
    }
}

/// The member of this name, if the object has no other.
pub fn sole_member<'v>(value: &'v Value, name: &str) -> Option<&'v Value>
    ensures { option_map (λ v. view v.now) result ≡ Members.sole_member name.now (view value.now) }
{
    if has_members(value, 1) {
        value.get(name)
    } else {
        None
    }
}

/// The items of a member that is a list.
pub fn items_at<'v>(value: &'v Value, name: &str) -> Option<&'v [Value]>
    ensures { option_map (λ v. items_view v.now) result ≡ Members.items_at name.now (view value.now) }
{
    let items = value.get(name)?.as_array()?;
    Some(items.as_slice())
}

/// A member that is a text.
pub fn text_at<'v>(value: &'v Value, name: &str) -> Option<&'v str>
    ensures { option_map (λ s. s.now) result ≡ Members.text_at name.now (view value.now) }
{
    value.get(name)?.as_str()
}

/// A member that is a whole number: one that `serde_json` has as a `u64` or an `i64`.
pub fn whole_at(value: &Value, name: &str) -> Option<i128>
    ensures { result ≡ Members.whole_at name.now (view value.now) }
{
    value.get(name)?.as_number()?.as_i128()
}

/// A member that is a whole number from `low` to `high`.
pub fn between_at(value: &Value, name: &str, low: u64, high: u64) -> Option<u64>
    ensures value { result ≡ Members.between_at name.now low high (view value.now) }
    ensures within { IfSome result (IsInRange low high) }
{
    let number = value.get(name)?.as_u64()?;
    if low <= number && number <= high {
        Some(number)
    } else {
        None
    }
}

/// A member that is a date from 2000 to 2099, as its day.
pub fn date_at(value: &Value, name: &str) -> Option<i32>
    ensures value { result ≡ Members.date_at name.now (view value.now) }
    ensures form { IfSome result IsInCentury }
{
    day_of(text_at(value, name)?.as_bytes()).ok()
}

/// A member that is a place.
pub fn place_at(value: &Value, name: &str) -> Option<Place>
    ensures value { result ≡ Members.place_at name.now (view value.now) }
    ensures form { IfSome result IsPlace }
{
    place_of(text_at(value, name)?.as_bytes())
}

/// A member that is a carrier.
pub fn carrier_at(value: &Value, name: &str) -> Option<Carrier>
    ensures value { result ≡ Members.carrier_at name.now (view value.now) }
    ensures form { IfSome result IsCarrier }
{
    carrier_of(text_at(value, name)?.as_bytes())
}

/// A member that is a fare basis.
pub fn basis_at(value: &Value, name: &str) -> Option<Basis>
    ensures value { result ≡ Members.basis_at name.now (view value.now) }
    ensures form { IfSome result IsBasis }
{
    basis_of(text_at(value, name)?.as_bytes())
}

/// A member that is a booking class.
pub fn class_at(value: &Value, name: &str) -> Option<Class>
    ensures value { result ≡ Members.class_at name.now (view value.now) }
    ensures form { IfSome result IsClass }
{
    class_of(text_at(value, name)?.as_bytes())
}
