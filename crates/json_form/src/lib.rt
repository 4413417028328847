//! Values that JSON spells: the value of a text, the members of an object by their names, the items
//! of a list, a fare. What isn't of its form is `None`; how a request or a filing is put together
//! from these is for the crates above.
#![tactic(auto)]

mod fares;
mod items;
mod members;
mod source;

pub use fares::{read_fare, read_fare_key};
pub use items::{FromJson, each, only_item};
pub use members::{
    basis_at, between_at, carrier_at, class_at, date_at, has_members, items_at, place_at,
    sole_member, text_at, whole_at,
};
pub use source::read_value;
