//! The kinds of units.
ghost use Rattle.std.specs.Prelude.{◌≡◌, ◌≤◌, ℤ, length, MatchOption};
ghost use Rattle.fare_law.specs.Lawful as Lawful;
ghost use Rattle.fare_law.specs.Units.{IsUnit};
ghost use Rattle.ticket_whole.specs.Kinds.{HasNoKind};
ghost use Rattle.ticket_whole.specs.Known.{parts_of};
ghost use Rattle.ticket_whole.specs.Stretches as Stretches;
ghost use Rattle.ticket_whole.specs.Stretches.{kind_of_ends};

use crate::stretch::{Stretch, stretches_of, unit_of};
use fare_book::Book;
use fare_law::{Component, MOST_COMPONENTS, UnitKind};

/// The kind of a unit, its first day, its day of return and its last day.
#[derive(Clone, Copy)]
pub struct UnitFacts {
    pub kind: UnitKind,
    pub first_day: i32,
    pub return_day: i32,
    pub last_day: i32,
}

/// The kind of the unit that those of at most `MOST_COMPONENTS` components make which have this label. None exactly
/// where they are a unit of no kind. Components without a live fare or a known flight are left out.
pub fn unit_kind(label: u8, components: &[Component], book: &Book) -> Option<UnitKind>
    requires { length components.now ≤ MOST_COMPONENTS }
    ensures { (sale : ℤ) → MatchOption result (HasNoKind (Lawful.unit_of label (parts_of book.now sale components.now))) (λ kind. IsUnit kind (Lawful.unit_of label (parts_of book.now sale components.now))) }
{
    let stretches = stretches_of(components, book);
    let unit = unit_of(label, stretches.as_slice());
    let facts = facts_of(unit.as_slice())?;
    Some(facts.kind)
}

/// The kind and the days of the unit that these stretches are, in order, if they are one.
pub fn facts_of(unit: &[Stretch]) -> Option<UnitFacts>
    ensures { result ≡ Stretches.facts_of unit.now }
{
    match unit {
        [a] => facts_from(kind_of_one(a), a, a),
        [a, b] => facts_from(kind_of_two(a, b), a, b),
        [a, b, c] => facts_from(kind_of_three(a, b, c), a, c),
        [a, b, c, d] => facts_from(kind_of_four(a, b, c, d), a, d),
        _ => None,
    }
}

/// The facts of a unit of this kind, from its first and its last stretch.
fn facts_from(kind: Option<UnitKind>, first: &Stretch, last: &Stretch) -> Option<UnitFacts>
    ensures { result ≡ Stretches.facts_from kind first.now last.now }
{
    Some(UnitFacts {
        kind: kind?,
        first_day: first.first_day,
        return_day: last.first_day,
        last_day: last.last_day,
    })
}

/// Whether the one begins where the other ended.
fn follows(a: &Stretch, b: &Stretch) -> bool
    ensures { result ≡ Stretches.follows a.now b.now }
{
    b.begin == a.end
}

/// The kind, where it holds.
fn only_if(holds: bool, kind: UnitKind) -> Option<UnitKind>
    ensures { result ≡ Stretches.only_if holds kind }
{
    if holds { Some(kind) } else { None }
}

/// A one way is forward.
fn kind_of_one(a: &Stretch) -> Option<UnitKind>
    ensures { result ≡ Stretches.kind_of_one a.now }
{
    only_if(!a.reverse, UnitKind::OneWay)
}

/// A round trip or an open jaw goes out forward and back reverse.
fn kind_of_two(a: &Stretch, b: &Stretch) -> Option<UnitKind>
    ensures { result ≡ Stretches.kind_of_two a.now b.now }
{
    if a.reverse || !b.reverse {
        return None;
    }
    kind_of_ends(follows(a, b), follows(b, a))
}

/// A round trip joins at the far and at the near end, an open jaw at one of them.
fn kind_of_ends(far: bool, near: bool) -> Option<UnitKind>
    ensures { result ≡ kind_of_ends far near }
{
    match (far, near) {
        (true, true) => Some(UnitKind::RoundTrip),
        (true, false) | (false, true) => Some(UnitKind::OpenJaw),
        (false, false) => None,
    }
}

/// A circle of three joins all round, and its last is reverse.
fn kind_of_three(a: &Stretch, b: &Stretch, c: &Stretch) -> Option<UnitKind>
    ensures { result ≡ Stretches.kind_of_three a.now b.now c.now }
{
    let ways = !a.reverse && !b.reverse && c.reverse;
    only_if(
        ways && follows(a, b) && follows(b, c) && follows(c, a),
        UnitKind::Circle,
    )
}

/// A circle of four likewise.
fn kind_of_four(a: &Stretch, b: &Stretch, c: &Stretch, d: &Stretch) -> Option<UnitKind>
    ensures { result ≡ Stretches.kind_of_four a.now b.now c.now d.now }
{
    let ways = !a.reverse && !b.reverse && !c.reverse && d.reverse;
    only_if(
        ways && follows(a, b) && follows(b, c) && follows(c, d) && follows(d, a),
        UnitKind::Circle,
    )
}
