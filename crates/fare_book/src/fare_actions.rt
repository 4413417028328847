//! Fares that are put and dropped.
ghost use Rattle.std.specs.Prelude.{◌≡◌, ◌%◌, ◌↔◌, MatchOption, IsTrue, IsSome};
ghost use Rattle.fare_law.specs.Book.{Book as Version, live_rule};
ghost use Rattle.fare_law.specs.Faults.{FaultOf};
ghost use Rattle.fare_law.specs.declared.fares.FareKind.TheVariants.{R};
ghost use Rattle.fare_law.specs.declared.filings.Action.TheVariants.{PutFare, DropFare};
ghost use Rattle.fare_book.specs.Drafts.{Acts, OnlyLimit, Places};
ghost use Rattle.fare_book.specs.Keeping.{Rules};
ghost use Rattle.fare_book.specs.Tables.{rule_of};

use crate::draft::{Draft, Stop};
use crate::keys::RuleKey;
use crate::tables::{remove_fare, replace_fare};
use crate::uses::{count_use, forget_use, move_use};
use fare_law::{BookWhy, Fare, FareKey, FareKind, MOST_FARES, Rule, Shared};
use std::alloc::Global;
use std::collections::HashMap;

/// Puts a fare in place of that of its key.
pub fn put_fare(draft: &mut Draft, alloc: Global, fare: &Fare) -> Result<(), Stop>
    ensures { Acts (PutFare fare.now) draft.old draft.new result }
{
    match fare_fault(&draft.rules, fare) {
        Some(why) => Err(Stop::Fault(why)),
        None => place_fare(draft, alloc, fare),
    }
}

/// Puts a fare that has no other fault than want of room.
fn place_fare(draft: &mut Draft, alloc: Global, fare: &Fare) -> Result<(), Stop>
    ensures { Places fare.now draft.old draft.new result }
{
    match replace_fare(alloc, &mut draft.tables, &draft.sheets, fare)? {
        Some(old) => {
            move_use(&mut draft.uses, rule_of(&old), rule_of(fare))?;
            Ok(())
        }
        None if draft.fare_count >= MOST_FARES => Err(Stop::Fault(BookWhy::Limit)),
        None => {
            count_use(&mut draft.uses, rule_of(fare))?;
            draft.fare_count += 1;
            Ok(())
        }
    }
}

/// Takes the fare of a key away.
pub fn drop_fare(draft: &mut Draft, alloc: Global, key: &FareKey) -> Result<(), Stop>
    ensures { Acts (DropFare key.now) draft.old draft.new result }
{
    match remove_fare(alloc, &mut draft.tables, &draft.sheets, key)? {
        Some(old) => {
            forget_use(&mut draft.uses, rule_of(&old))?;
            draft.fare_count = draft.fare_count.saturating_sub(1);
            Ok(())
        }
        None => Err(Stop::Fault(BookWhy::NoFare)),
    }
}

/// The first fault of a fare that is put, but for want of room.
fn fare_fault(rules: &HashMap<RuleKey, Shared<Rule>>, fare: &Fare) -> Option<BookWhy>
    ensures { (b : Version) → Rules b rules.now.entries → MatchOption result (OnlyLimit b fare.now) (FaultOf b (PutFare fare.now)) }
{
    if fare.key.from.is(fare.key.to) {
        Some(BookWhy::SamePlace)
    } else if is_odd_round(fare) {
        Some(BookWhy::OddRound)
    } else if !has_rule(rules, rule_of(fare)) {
        Some(BookWhy::NoRule)
    } else {
        None
    }
}

/// Whether a fare that is halved has an odd amount.
fn is_odd_round(fare: &Fare) -> bool
    ensures { IsTrue result ↔ ((fare.now.kind ≡ R) × (fare.now.amount % 2 ≡ 1)) }
{
    match fare.kind {
        FareKind::R => fare.amount % 2 == 1,
        FareKind::O | FareKind::S => false,
    }
}

/// Whether a rule is live. Rule 0 is of each carrier.
pub fn has_rule(rules: &HashMap<RuleKey, Shared<Rule>>, rule: RuleKey) -> bool
    ensures { (b : Version) → Rules b rules.now.entries → IsTrue result ↔ IsSome (live_rule b rule.carrier rule.number) }
{
    if rule.number == 0 {
        return true;
    }
    rules.contains_key(&rule)
}

/// The rule that a fare names.
pub fn rule_of(fare: &Fare) -> RuleKey
    ensures { result ≡ rule_of fare.now }
{
    RuleKey {
        carrier: fare.key.carrier,
        number: fare.rule,
    }
}
