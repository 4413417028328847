//! Findings.

/// A breach of a ticket: the number of the rule, 1 to 26, the component, counted from 1, with the label
/// of its unit, and the category. Component and unit are 0 where the ticket breaks the rule as a whole,
/// and the category is 0 where the rule reads none.
#[derive(Clone, Copy)]
pub struct Finding {
    pub rule: u8,
    pub component: u8,
    pub unit: u8,
    pub category: u8,
}
