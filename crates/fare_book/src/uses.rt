//! How many live fares name each rule.
ghost use Rattle.std.specs.Prelude.{◌≡◌, ◌+◌, ◌-◌, ◌<◌, ◌≤◌, ◌^◌, OnOk, if◌then◌else◌};
ghost use Rattle.fare_book.specs.declared.keys.RuleKey.{RuleKey as RuleName};
ghost use Rattle.fare_book.specs.Keeping.{uses_at, uses_without};
ghost use Rattle.fare_book.specs.Keys.{same_rule};

use crate::keys::RuleKey;
use fare_law::Mem;
use std::collections::HashMap;

/// How many live fares name a rule.
pub fn uses_of(uses: &HashMap<RuleKey, u32>, rule: RuleKey) -> u32
    ensures value { result ≡ uses_at uses.now.entries rule }
    ensures fits { result < 2 ^ 32 }
{
    uses.get(&rule).copied().unwrap_or(0)
}

/// Counts one fare more that names a rule.
pub fn count_use(uses: &mut HashMap<RuleKey, u32>, rule: RuleKey) -> Result<(), Mem>
    ensures { OnOk result ((k : RuleName) → uses_at uses.old.entries rule + 1 < 2 ^ 32 → uses_at uses.new.entries k ≡ (if same_rule k rule then uses_at uses.old.entries rule + 1 else uses_at uses.old.entries k)) }
{
    let count = uses_of(uses, rule);
    uses.insert(rule, count.saturating_add(1))?;
    Ok(())
}

/// Counts one fare less that names a rule.
pub fn forget_use(uses: &mut HashMap<RuleKey, u32>, rule: RuleKey) -> Result<(), Mem>
    ensures { OnOk result ((k : RuleName) → uses_at uses.new.entries k ≡ (if same_rule k rule then uses_at uses.old.entries rule - 1 else uses_at uses.old.entries k)) }
{
    let count = uses_of(uses, rule);
    uses.insert(rule, count.saturating_sub(1))?;
    Ok(())
}

/// Counts a fare that names one rule in place of another.
pub fn move_use(uses: &mut HashMap<RuleKey, u32>, old: RuleKey, rule: RuleKey) -> Result<(), Mem>
    ensures { OnOk result ((k : RuleName) → 1 ≤ uses_at uses.old.entries old → uses_without uses.old.entries old rule + 1 < 2 ^ 32 → uses_at uses.new.entries k ≡ (if same_rule k rule then uses_without uses.old.entries old rule + 1 else uses_without uses.old.entries old k)) }
{
    // A fare that is filed again mostly names the same rule.
    if old == rule {
        return Ok(());
    }
    forget_use(uses, old)?;
    count_use(uses, rule)
}
