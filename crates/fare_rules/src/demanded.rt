//! What demands say in the words of the rules.
ghost use Rattle.fare_law.specs.RuleLimits.{IsRule};
ghost use Rattle.fare_law.specs.declared.rules.Rule.{Rule};
ghost use Rattle.fare_rules.specs.Meeting.{DemandsAreRules};
ghost use Rattle.fare_rules.specs.Ranges.{StaysInRange};

/// A unit meets the demand of the rule of one of its fares exactly where categories 6, 7 and 10
/// and the last day of category 14 of that rule hold.
pub fn demands_are_rules()
    ensures { DemandsAreRules }
{}

/// A rule within its limits has the ranges that demands ask of rules.
pub fn rules_stay_in_range()
    ensures { (rule : Rule) → IsRule rule → StaysInRange rule }
{}
