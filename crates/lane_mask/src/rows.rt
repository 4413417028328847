// Which rows' spans hold a day.
ghost use Rattle.std.specs.Prelude.{false, ℕ, ◌+◌, ◌<◌, ◌≤◌, ◌≡◌, ◌≢◌, ◌↔◌, length, pos, ◌≤ℤ◌, slice_index_or, FitsSigned, IsTrue};
ghost use Rattle.std.specs.Int.{w32};
ghost use Rattle.lane_mask.specs.Spans.{AreMarked, HoldsDay};

use std::simd::prelude::*;

// The rows of one step: sixteen marks fill one vector of bytes.
const LANES: usize = 16;

/// `out[i]` is true exactly where `lows[i] <= day <= highs[i]`. The three lists have one length.
pub fn between(lows: &[i32], highs: &[i32], day: i32, out: &mut [bool])
    requires lows { length lows.now ≡ length out.old }
    requires highs { length highs.now ≡ length out.old }
    ensures { AreMarked lows.now highs.now day out.new (length lows.now) }
{
    let mut at = 0;
    while out.len() - at >= LANES {
        let lanes = lanes_between(lows, highs, day, at);
        mark_lanes(&lanes, at, out);
        at += LANES;
    }
    mark_rest(lows, highs, day, at, out);
}

// The rows of one step, from `at` on. Each number is read by itself, which tells that it fits its
// type; the compiler joins the reads to loads of whole vectors.
fn load(column: &[i32], at: usize) -> [i32; LANES]
    requires { at + LANES ≤ length column.now }
    ensures rows { (i : ℕ) → i < LANES →
        slice_index_or result i (pos 0) ≡ slice_index_or column.now (at + i) (pos 0) }
    ensures fit { (i : ℕ) → i < LANES → FitsSigned w32 (slice_index_or result i (pos 0)) }
{
    let mut lanes = [0; LANES];
    for i in 0..LANES {
        lanes[i] = column[at + i];
    }
    lanes
}

// A lane is not 0 exactly where its row, counted from `at`, holds the day.
fn lanes_between(lows: &[i32], highs: &[i32], day: i32, at: usize) -> [i32; LANES]
    requires lows { at + LANES ≤ length lows.now }
    requires highs { at + LANES ≤ length highs.now }
    ensures { (i : ℕ) → i < LANES →
        ((slice_index_or result i (pos 0) ≢ pos 0) ↔ HoldsDay lows.now highs.now day (at + i)) }
{
    let lows = i32x16::from_array(load(lows, at));
    let highs = i32x16::from_array(load(highs, at));
    let days = i32x16::splat(day);
    (lows.simd_le(days) & days.simd_le(highs))
        .to_simd()
        .to_array()
}

// Writes what the lanes tell of the rows from `at` on, and leaves the marks before them.
fn mark_lanes(lanes: &[i32; LANES], at: usize, out: &mut [bool])
    requires { at + LANES ≤ length out.old }
    ensures marks { (i : ℕ) → i < LANES →
        (IsTrue (slice_index_or out.new (at + i) false) ↔ (slice_index_or lanes.now i (pos 0) ≢ pos 0)) }
    ensures before { (i : ℕ) → i < at → slice_index_or out.new i false ≡ slice_index_or out.old i false }
{
    for i in 0..LANES {
        out[at + i] = lanes[i] != 0;
    }
}

// The rows from `at` on, one by one.
fn mark_rest(lows: &[i32], highs: &[i32], day: i32, at: usize, out: &mut [bool])
    requires lows { length lows.now ≡ length out.old }
    requires highs { length highs.now ≡ length out.old }
    requires room { at ≤ length out.old }
    requires marked { AreMarked lows.now highs.now day out.old at }
    ensures { AreMarked lows.now highs.now day out.new (length lows.now) }
{
    for i in at..out.len() {
        out[i] = holds_day(lows[i], highs[i], day);
    }
}

fn holds_day(low: i32, high: i32, day: i32) -> bool
    ensures { IsTrue result ↔ ((low ≤ℤ day) × (day ≤ℤ high)) }
{
    low <= day && day <= high
}
