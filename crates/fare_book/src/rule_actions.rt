//! Rules that are put and dropped.
ghost use Rattle.std.specs.Prelude.{◌≡◌, None, Some, OnOk, true, if◌then◌else◌};
ghost use Rattle.std.specs.List.{list_any};
ghost use Rattle.fare_law.specs.FilingLimits.{IsAction};
ghost use Rattle.fare_law.specs.declared.filings.Action.TheVariants.{PutRule, DropRule};
ghost use Rattle.fare_book.specs.Drafts.{Acts};
ghost use Rattle.fare_book.specs.Keeping.{rule_at};
ghost use Rattle.fare_book.specs.Keys.{same_rule};
ghost use Rattle.fare_book.specs.declared.keys.RuleKey.{RuleKey as RuleName};

use crate::draft::{Draft, Stop};
use crate::fare_actions::has_rule;
use crate::keys::RuleKey;
use crate::uses::uses_of;
use fare_law::{BookWhy, Carrier, MOST_RULES, Mem, Rule, Shared};
use std::collections::{HashMap, HashSet};

/// Puts a rule in place of that of its carrier and number.
pub fn put_rule(
    draft: &mut Draft,
    carrier: Carrier,
    number: u16,
    rule: &Shared<Rule>,
) -> Result<(), Stop>
    requires { IsAction (PutRule carrier number rule.now) }
    ensures { Acts (PutRule carrier number rule.now) draft.old draft.new result }
{
    let key = RuleKey { carrier, number };
    if has_rule(&draft.rules, key) {
        set_rule(&mut draft.rules, &mut draft.changed, key, rule)?;
        return Ok(());
    }
    if draft.rule_count >= MOST_RULES {
        return Err(Stop::Fault(BookWhy::Limit));
    }
    set_rule(&mut draft.rules, &mut draft.changed, key, rule)?;
    draft.rule_count += 1;
    Ok(())
}

/// Takes a rule away that no live fare names.
pub fn drop_rule(draft: &mut Draft, carrier: Carrier, number: u16) -> Result<(), Stop>
    requires { IsAction (DropRule carrier number) }
    ensures { Acts (DropRule carrier number) draft.old draft.new result }
{
    let key = RuleKey { carrier, number };
    if !has_rule(&draft.rules, key) {
        return Err(Stop::Fault(BookWhy::NoRule));
    }
    if uses_of(&draft.uses, key) != 0 {
        return Err(Stop::Fault(BookWhy::RuleInUse));
    }
    unset_rule(&mut draft.rules, &mut draft.changed, key)?;
    draft.rule_count = draft.rule_count.saturating_sub(1);
    Ok(())
}

fn set_rule(
    rules: &mut HashMap<RuleKey, Shared<Rule>>,
    changed: &mut HashSet<RuleKey>,
    key: RuleKey,
    rule: &Shared<Rule>,
) -> Result<(), Mem>
    ensures rules { OnOk result ((q : RuleName) → rule_at rules.new.entries q ≡ (if same_rule q key then Some rule.now else rule_at rules.old.entries q)) }
    ensures changed { OnOk result ((q : RuleName) → list_any (same_rule q) changed.new.keys ≡ (if same_rule q key then true else list_any (same_rule q) changed.old.keys)) }
{
    let rule = rule.share()?;
    rules.insert(key, rule)?;
    changed.insert(key)?;
    Ok(())
}

fn unset_rule(
    rules: &mut HashMap<RuleKey, Shared<Rule>>,
    changed: &mut HashSet<RuleKey>,
    key: RuleKey,
) -> Result<(), Mem>
    ensures rules { OnOk result ((q : RuleName) → rule_at rules.new.entries q ≡ (if same_rule q key then None else rule_at rules.old.entries q)) }
    ensures changed { OnOk result ((q : RuleName) → list_any (same_rule q) changed.new.keys ≡ (if same_rule q key then true else list_any (same_rule q) changed.old.keys)) }
{
    rules.remove(&key);
    changed.insert(key)?;
    Ok(())
}
