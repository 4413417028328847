//! The form of a request: what its text asks, before its numbers are held to their limits.
ghost use Rattle.std.specs.Prelude.{◌≡◌, IfOk, IfSome, codes};
ghost use Rattle.serde_json.specs.View.{view};
ghost use Rattle.market_time.specs.Dates.{IsInCentury};
ghost use Rattle.request_text.specs.Form as Form;

use fare_law::{List, Mem, Place};
use json_form::{FromJson, date_at, each, has_members, items_at, place_at, whole_at};
use serde_json::Value;
use std::alloc::Global;

/// One slice, with any whole number of days.
#[derive(Clone, Copy)]
pub struct AskedSlice {
    pub from: Place,
    pub to: Place,
    pub first: i32,
    pub days: i128,
}

/// The day of sale and the numbers of a request, with any whole numbers.
#[derive(Clone, Copy)]
pub struct Terms {
    pub sale: i32,
    pub party: i128,
    pub best: i128,
}

/// A request of any whole numbers and any count of slices.
#[derive(Drop)]
pub struct Asked {
    pub terms: Terms,
    pub slices: List<AskedSlice>,
}

impl FromJson for AskedSlice {
    ghost use Rattle.request_text.specs.Form.{slice_form, IsAskedSlice};

    ghost form = { slice_form };

    ghost holds = { IsAskedSlice };

    fn from_json(value: &Value) -> Option<AskedSlice> {
        if !has_members(value, 4) {
            return None;
        }
        Some(AskedSlice {
            from: place_at(value, "from")?,
            to: place_at(value, "to")?,
            first: date_at(value, "first")?,
            days: whole_at(value, "days")?,
        })
    }
}

/// What a JSON value asks, or `None` where it isn't of the form of a request.
#[tactic(auto, unfolding(crate::specs::Form::asked))]
pub fn read_asked(alloc: Global, value: &Value) -> Result<Option<Asked>, Mem>
    ensures value { IfOk result (λ found. found ≡ Form.asked (view value.now)) }
    ensures holds { IfOk result (λ found. IfSome found Form.IsAsked) }
{
    let Some(terms) = read_terms(value) else {
        return Ok(None);
    };
    let Some(items) = items_at(value, "slices") else {
        return Ok(None);
    };
    let Some(slices) = each::<AskedSlice>(alloc, items)? else {
        return Ok(None);
    };
    Ok(Some(Asked { terms, slices }))
}

// The terms of an object whose members are those of a request.
fn read_terms(value: &Value) -> Option<Terms>
    ensures value { result ≡ Form.terms (view value.now) }
    ensures sale { IfSome result (λ terms. IsInCentury terms.sale) }
{
    if !has_members(value, member_count(value)) {
        return None;
    }
    Some(Terms {
        sale: date_at(value, "sale")?,
        party: whole_at(value, "party")?,
        best: read_best(value)?,
    })
}

// How many members a request has: `best` may be absent.
fn member_count(value: &Value) -> usize
    ensures { result ≡ Form.member_count (view value.now) }
{
    if value.get("best").is_some() { 4 } else { 3 }
}

// How many tickets are asked for, 10 where the request doesn't say.
fn read_best(value: &Value) -> Option<i128>
    ensures { result ≡ Form.best (view value.now) }
{
    if value.get("best").is_some() {
        whole_at(value, "best")
    } else {
        Some(10)
    }
}
