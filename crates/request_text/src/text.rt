//! The text of a request.
ghost use Rattle.std.specs.Prelude.{◌≡◌, IfOk, Ok, codes};
ghost use Rattle.serde_json.specs.Data.{object};
ghost use Rattle.serde_json.specs.View.{view, items_view};
ghost use Rattle.fare_law.specs.Lists.{Each};
ghost use Rattle.fare_law.specs.Limits.{IsSlice, IsRequest};
ghost use Rattle.request_text.specs.Reading.{request_of};
ghost use Rattle.request_text.specs.Text as Text;
ghost use Rattle.request_text.specs.Text.{Writes, WritesRequest, WritesSlice, WritesSlices};

use fare_law::{List, Mem, Request, Slice};
use market_time::day_text;
use name_text::{ascii_text, place_text};
use serde_json::{Value, json};
use std::alloc::{AllocError, Global};

/// The text of a request within its limits: compact, with members ascending by name. It is read
/// again as the request.
pub fn request_text(alloc: Global, request: &Request) -> Result<List<u8>, Mem>
    requires { IsRequest request.now }
    ensures text { IfOk result (Writes request.now) }
    ensures again { IfOk result (λ text. request_of text ≡ Ok request.now) }
{
    let value = request_value(alloc, request)?;
    let text = value.to_string(alloc)?;
    Ok(List::from_vec(text.into_bytes()))
}

// A request as a JSON value.
fn request_value(alloc: Global, request: &Request) -> Result<Value, Mem>
    requires { IsRequest request.now }
    ensures { IfOk result (λ value. WritesRequest request.now (view value)) }
{
    let slices = Value::Array(slice_values(alloc, request.slices.as_slice())?);
    let sale = day_text(request.sale);
    Ok(request_json(
        alloc,
        request.best,
        request.party,
        ascii_text(&sale),
        &slices,
    )?)
}

// Slices as JSON values.
#[tactic(auto, using(crate::proofs::TextLemmas::slice_steps))]
fn slice_values(alloc: Global, slices: &[Slice]) -> Result<Vec<Value>, Mem>
    requires { Each IsSlice slices.now }
    ensures { IfOk result (λ values. WritesSlices slices.now (items_view values.items)) }
{
    let mut values = Vec::new(alloc);
    for slice in slices {
        values.push(slice_value(alloc, slice)?)?;
    }
    Ok(values)
}

// A slice as a JSON value.
fn slice_value(alloc: Global, slice: &Slice) -> Result<Value, Mem>
    requires { IsSlice slice.now }
    ensures { IfOk result (λ value. WritesSlice slice.now (view value)) }
{
    let first = day_text(slice.first);
    Ok(slice_json(
        alloc,
        slice.days,
        ascii_text(&first),
        place_text(&slice.from),
        place_text(&slice.to),
    )?)
}

fn request_json(
    alloc: Global,
    best: u16,
    party: u8,
    sale: &str,
    slices: &Value,
) -> Result<Value, AllocError>
    ensures { IfOk result (λ value. view value
        ≡ Text.request_members best party sale.now (view slices.now)) }
{
    json!(in alloc; {"best": best, "party": party, "sale": sale, "slices": slices})
}

fn slice_json(
    alloc: Global,
    days: u8,
    first: &str,
    from: &str,
    to: &str,
) -> Result<Value, AllocError>
    ensures { IfOk result (λ value. view value
        ≡ Text.slice_members days first.now from.now to.now) }
{
    json!(in alloc; {"days": days, "first": first, "from": from, "to": to})
}
