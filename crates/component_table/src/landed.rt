//! Paths that end where a fare is filed, by classes: those of a class have one outline with each group of fares.
ghost use Rattle.std.specs.Prelude.{◌≡◌, ◌≤◌, ◌<◌, ◌∷◌, [], IfOk, IsTrue, OnOk, Some, length, slice_get, true};
ghost use Rattle.component_table.specs.declared.landed.Landing.{Landing as OneLanding};
ghost use Rattle.component_table.specs.Begun.{AreLandings, IsKnown, IsOrigin, LandedPaths, StaysKnown};
ghost use Rattle.component_table.specs.Landed.{AreAlike, GroupLanded, IsGroupOfClass, IsLandedClass, IsLandedGroup, IsLandedOf, IsLandedSought, IsOutlineOfClass, IsSaidOfRule, SaysOfLanded, SaysOfLandings};
ghost use Rattle.component_table.specs.Tables.{AddsThose};
ghost use Rattle.fare_ends.specs.declared.ends.FareEnds.{FareEnds as KnownFares};
ghost use Rattle.fare_ends.specs.declared.rule_numbers.KnownRule.{KnownRule as OneRule};
ghost use Rattle.fare_ends.specs.Ends.{between};
ghost use Rattle.fare_law.specs.Lists.{Each, IsIn};
ghost use Rattle.joint_paths.specs.Costs.{CostsLeast, GoesDown};
ghost use Rattle.joint_paths.specs.Said.{AreSaid};
ghost use Rattle.fare_ends.specs.Legs.{AreAmong};

use crate::begun::{Known, Origin};
use fare_ends::{EndGroup, FareEnd, FareEnds, KnownRule, is_less, lesser, same_after};
use fare_groups::{Rung, first_share};
use fare_law::{Mem, Place};
use flight_paths::Path;
use joint_paths::{Charged, RuleCharges};
use outline_tables::Priced;
use outlines::Outline;

/// A path that ends where a fare is filed, on which some class of seats is open.
#[derive(Clone, Copy)]
pub struct Landing {
    /// The number of the position to which it leads.
    pub after: usize,
    /// The day of its last flight, and where it ends.
    pub last: i32,
    pub place: Place,
    /// Where it stands among the paths.
    pub path: usize,
    pub classes: u32,
    pub end: FareEnd,
}

/// A class of paths, and the classes of seats that are open on some of them.
#[derive(Clone, Copy)]
pub struct LandedClass<'a> {
    pub paths: &'a [Path],
    pub landings: &'a [Landing],
    pub classes: u32,
}

/// Adds the outlines of landings, of which those of one class stand together.
pub fn price_landings(
    origin: &Origin<'_>,
    known: &mut Known,
    charges: &mut RuleCharges,
    found: &mut Vec<Priced>,
    paths: &[Path],
    landings: &[Landing],
) -> Result<(), Mem>
    requires origin { IsOrigin origin.now }
    requires known { IsKnown origin.now.case.now.book.now known.old }
    requires landings { AreLandings origin.now known.old.fares paths.now landings.now }
    ensures known { IsKnown origin.now.case.now.book.now known.new }
    ensures fares { known.new.fares ≡ known.old.fares }
    ensures stays { StaysKnown known.old known.new }
    ensures found { OnOk result (AddsThose origin.now.case.now.book.now origin.now.case.now.request.now origin.now.at.now (LandedPaths paths.now landings.now) known.new.outlines.of.items found.old.items found.new.items) }
{
    let mut from = 0;
    while from < landings.len() {
        let to = past_class(paths, landings, from);
        let class = class_between(paths, landings, from, to);
        add_class(origin, known, charges, found, &class)?;
        from = to;
    }
    Ok(())
}

/// The landings of a class, from one place up to another.
fn class_between<'a>(
    paths: &'a [Path],
    landings: &'a [Landing],
    from: usize,
    to: usize,
) -> LandedClass<'a>
    requires in_turn { from ≤ to }
    requires within { to ≤ length landings.now }
    ensures paths { result.paths.now ≡ paths.now }
    ensures landings { result.landings.now ≡ between landings.now from to }
    ensures classes { (l : OneLanding) → IsIn l (between landings.now from to) → AreAmong l.classes result.classes }
{
    let own = &landings[from..to];
    LandedClass {
        paths,
        landings: own,
        classes: union_of(own),
    }
}

/// Where the class ends that stands there.
fn past_class(paths: &[Path], landings: &[Landing], from: usize) -> usize
    requires within { from < length landings.now }
    requires paths { Each (λ (l : OneLanding). l.path < length paths.now) landings.now }
    ensures past { from < result }
    ensures within { result ≤ length landings.now }
    ensures alike { (one : OneLanding) → slice_get landings.now from ≡ Some one → Each (AreAlike paths.now one) (between landings.now from result) }
{
    let one = &landings[from];
    for at in from + 1..landings.len() {
        if !are_alike(paths, one, &landings[at]) {
            return at;
        }
    }
    landings.len()
}

/// Whether landings are of one class.
fn are_alike(paths: &[Path], one: &Landing, other: &Landing) -> bool
    requires one { one.now.path < length paths.now }
    requires other { other.now.path < length paths.now }
    ensures { IsTrue result → AreAlike paths.now one.now other.now }
{
    one.last == other.last
        && one.place.is(other.place)
        && same_after(&paths[one.path].after, &paths[other.path].after)
}

/// Adds the outlines of the paths of a class.
fn add_class(
    origin: &Origin<'_>,
    known: &mut Known,
    charges: &mut RuleCharges,
    found: &mut Vec<Priced>,
    class: &LandedClass<'_>,
) -> Result<(), Mem>
    requires origin { IsOrigin origin.now }
    requires known { IsKnown origin.now.case.now.book.now known.old }
    requires class { IsLandedClass origin.now known.old.fares class.now }
    ensures known { IsKnown origin.now.case.now.book.now known.new }
    ensures fares { known.new.fares ≡ known.old.fares }
    ensures stays { StaysKnown known.old known.new }
    ensures found { OnOk result (AddsThose origin.now.case.now.book.now origin.now.case.now.request.now origin.now.at.now (LandedPaths class.now.paths.now class.now.landings.now) known.new.outlines.of.items found.old.items found.new.items) }
{
    origin.case.book.limits();
    charges.clear();
    let end = end_of(class);
    for at in end.from..end.to {
        let group = group_at(&known.fares, at);
        add_group(origin, known, charges, found, &group, class)?;
    }
    Ok(())
}

/// The fares for the end of a class.
fn end_of(class: &LandedClass<'_>) -> FareEnd
    requires { 0 < length class.now.landings.now }
    ensures { (l : OneLanding) → slice_get class.now.landings.now 0 ≡ Some l → result ≡ l.end }
{
    class.landings[0].end
}

/// The group at a place.
fn group_at(fares: &FareEnds, at: usize) -> EndGroup
    requires { at < length fares.now.groups.items }
    ensures { slice_get fares.now.groups.items at ≡ Some result }
{
    fares.groups[at]
}

/// Adds the outline of a group on the paths of a class, if it has a price there.
fn add_group(
    origin: &Origin<'_>,
    known: &mut Known,
    charges: &mut RuleCharges,
    found: &mut Vec<Priced>,
    group: &EndGroup,
    class: &LandedClass<'_>,
) -> Result<(), Mem>
    requires origin { IsOrigin origin.now }
    requires known { IsKnown origin.now.case.now.book.now known.old }
    requires class { IsLandedClass origin.now known.old.fares class.now }
    requires group { IsGroupOfClass origin.now known.old.fares class.now group.now }
    requires said { AreSaid (SaysOfLandings origin.now known.old.fares.rules.of.items class.now) (length class.now.landings.now) charges.old }
    ensures known { IsKnown origin.now.case.now.book.now known.new }
    ensures fares { known.new.fares ≡ known.old.fares }
    ensures stays { StaysKnown known.old known.new }
    ensures said { OnOk result (AreSaid (SaysOfLandings origin.now known.old.fares.rules.of.items class.now) (length class.now.landings.now) charges.new) }
    ensures found { OnOk result (AddsThose origin.now.case.now.book.now origin.now.case.now.request.now origin.now.at.now (GroupLanded class.now.paths.now class.now.landings.now group.now) known.new.outlines.of.items found.old.items found.new.items) }
{
    origin.case.book.limits();
    let _flights = origin.case.flights();
    let Some(price) = least_of(origin, &known.fares, charges, group, class)? else {
        return Ok(());
    };
    let outline = outline_of(origin, group, class);
    let rule = known.fares.rules.get(group.rule);
    let after = class.landings[0].after;
    let outline = known.outlines.find(&outline, after, &rule.rule)?;
    found.push(Priced { outline, price })?;
    Ok(())
}

/// The outline of a group's components on the paths of a class.
fn outline_of(origin: &Origin<'_>, group: &EndGroup, class: &LandedClass<'_>) -> Outline
    requires { (fares : KnownFares) × IsLandedClass origin.now fares class.now }
    ensures { IsOutlineOfClass origin.now group.now class.now result }
{
    let one = &class.landings[0];
    Outline {
        after: class.paths[one.path].after,
        end: one.place,
        first: origin.first.day,
        last: one.last,
        carrier: group.key.carrier,
        number: group.key.number,
        kind: group.key.kind,
        reverse: group.reverse,
    }
}

/// The least price of a group on the paths of a class. None exactly where it has none.
fn least_of(
    origin: &Origin<'_>,
    fares: &FareEnds,
    charges: &mut RuleCharges,
    group: &EndGroup,
    class: &LandedClass<'_>,
) -> Result<Option<u64>, Mem>
    requires origin { IsOrigin origin.now }
    requires class { IsLandedClass origin.now fares.now class.now }
    requires group { IsLandedGroup origin.now fares.now group.now }
    requires said { AreSaid (SaysOfLandings origin.now fares.now.rules.of.items class.now) (length class.now.landings.now) charges.old }
    ensures said { OnOk result (AreSaid (SaysOfLandings origin.now fares.now.rules.of.items class.now) (length class.now.landings.now) charges.new) }
    ensures least { IfOk result (λ least. (one : OneRule) → slice_get fares.now.rules.of.items group.now.rule ≡ Some one → CostsLeast one (between fares.now.rungs.items group.now.from group.now.to) (IsLandedOf origin.now class.now.paths.now class.now.landings.now) least) }
{
    let rungs = fares.rungs(group);
    let rule = fares.rules.get(group.rule);
    let Some(floor) = first_share(rungs, class.classes) else {
        return Ok(None);
    };
    if !rule.is_free {
        charges.turn_to(group.rule, class.landings.len())?;
    }
    let sought = LandedSought {
        rungs,
        rule,
        number: group.rule,
        floor,
    };
    Ok(least_over(origin, charges, &sought, class))
}

/// A group of fares, its rule, and a price below which no path is.
#[derive(Clone, Copy)]
pub struct LandedSought<'a> {
    pub rungs: &'a [Rung],
    pub rule: &'a KnownRule,
    pub number: usize,
    pub floor: u64,
}

/// The least price over all paths of a class.
fn least_over(
    origin: &Origin<'_>,
    charges: &mut RuleCharges,
    sought: &LandedSought<'_>,
    class: &LandedClass<'_>,
) -> Option<u64>
    requires origin { IsOrigin origin.now }
    requires sought { IsLandedSought origin.now class.now sought.now }
    requires said { IsSaidOfRule origin.now class.now sought.now charges.old }
    ensures said { IsSaidOfRule origin.now class.now sought.now charges.new }
    ensures rule { charges.new.rule ≡ charges.old.rule }
    ensures free { sought.now.rule.now.is_free ≡ true → charges.new ≡ charges.old }
    ensures least { CostsLeast sought.now.rule.now sought.now.rungs.now (IsLandedOf origin.now class.now.paths.now class.now.landings.now) result }
{
    let mut least = None;
    for at in 0..class.landings.len() {
        if !is_less(sought.floor, least) {
            return least;
        }
        least = with_landing(origin, charges, sought, class, at, least);
    }
    least
}

/// The least price with a path more.
fn with_landing(
    origin: &Origin<'_>,
    charges: &mut RuleCharges,
    sought: &LandedSought<'_>,
    class: &LandedClass<'_>,
    at: usize,
    least: Option<u64>,
) -> Option<u64>
    requires origin { IsOrigin origin.now }
    requires sought { IsLandedSought origin.now class.now sought.now }
    requires said { IsSaidOfRule origin.now class.now sought.now charges.old }
    requires place { (l : OneLanding) × (slice_get class.now.landings.now at ≡ Some l) }
    ensures said { IsSaidOfRule origin.now class.now sought.now charges.new }
    ensures rule { charges.new.rule ≡ charges.old.rule }
    ensures free { sought.now.rule.now.is_free ≡ true → charges.new ≡ charges.old }
    ensures least { (l : OneLanding) → slice_get class.now.landings.now at ≡ Some l → GoesDown sought.now.rule.now sought.now.rungs.now (IsLandedOf origin.now class.now.paths.now class.now.landings.now) (IsLandedOf origin.now class.now.paths.now (l ∷ [])) least result }
{
    let Some(share) = first_share(sought.rungs, class.landings[at].classes) else {
        return least;
    };
    if !is_less(share, least) {
        return least;
    }
    match charges_at(origin, charges, sought, class, at) {
        Some(charges) => Some(lesser(share + charges, least)),
        None => least,
    }
}

/// The charges of a rule on the path at a place. None exactly where it doesn't permit it.
fn charges_at(
    origin: &Origin<'_>,
    charges: &mut RuleCharges,
    sought: &LandedSought<'_>,
    class: &LandedClass<'_>,
    at: usize,
) -> Option<u64>
    requires origin { IsOrigin origin.now }
    requires sought { IsLandedSought origin.now class.now sought.now }
    requires said { IsSaidOfRule origin.now class.now sought.now charges.old }
    requires place { (l : OneLanding) × (slice_get class.now.landings.now at ≡ Some l) }
    ensures said { IsSaidOfRule origin.now class.now sought.now charges.new }
    ensures rule { charges.new.rule ≡ charges.old.rule }
    ensures free { sought.now.rule.now.is_free ≡ true → charges.new ≡ charges.old }
    ensures says { (l : OneLanding) → slice_get class.now.landings.now at ≡ Some l → SaysOfLanded origin.now sought.now.rule.now class.now.paths.now l result }
{
    if sought.rule.is_free {
        return Some(0);
    }
    match charges.get(at) {
        Charged::Permitted(charged) => Some(charged),
        Charged::Refused => None,
        Charged::NotAsked => {
            let charged = asked_charges(origin, sought, class, at);
            charges.put(at, charged);
            charged
        }
    }
}

/// The same, where the rule wasn't asked yet.
fn asked_charges(
    origin: &Origin<'_>,
    sought: &LandedSought<'_>,
    class: &LandedClass<'_>,
    at: usize,
) -> Option<u64>
    requires origin { IsOrigin origin.now }
    requires sought { IsLandedSought origin.now class.now sought.now }
    requires place { (l : OneLanding) × (slice_get class.now.landings.now at ≡ Some l) }
    ensures { (l : OneLanding) → slice_get class.now.landings.now at ≡ Some l → SaysOfLanded origin.now sought.now.rule.now class.now.paths.now l result }
{
    let path = &class.paths[class.landings[at].path];
    let flights = origin.case.flights_of(path.flights.as_slice(), &[]);
    sought.rule.charges(flights.as_slice())
}

/// The classes of seats that are open on some path of a class.
fn union_of(landings: &[Landing]) -> u32
    ensures { (l : OneLanding) → IsIn l landings.now → AreAmong l.classes result }
{
    let mut classes = 0;
    for landing in landings {
        classes |= landing.classes;
    }
    classes
}
