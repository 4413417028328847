//! Keys of residuals, spread over numbers.
ghost use Rattle.std.specs.Prelude.{◌≡◌};
ghost use Rattle.search_steps.specs.Spreading.{mixed};

use graph_walk::{Rows, Spread};
use residual_table::ResidualKey;

/// Spreads the keys of residuals so that those which differ in their positions alone lie near each other: what a
/// residual leads to mostly has its open units, and positions whose numbers are near.
#[derive(Clone, Copy)]
pub struct ByUnits;

/// Rows of residuals, each with a bound or with none.
pub type ResidualRows = Rows<ResidualKey, ByUnits>;

impl Spread<ResidualKey> for ByUnits {
    ghost use Rattle.search_steps.specs.Spreading.{alike, spread};

    ghost number = { spread };

    ghost respects_eq = { alike };

    fn number(key: &ResidualKey) -> u64 {
        (mixed(key) >> 32).wrapping_add(u64::from(key.position))
    }
}

/// The open units and the ticket part as one number.
fn mixed(key: &ResidualKey) -> u64
    ensures { result ≡ mixed key.now }
{
    let part = &key.part;
    let ticket = u64::from(part.units)
        + u64::from(part.ends) * 256
        + u64::from(part.carrier.number()) * 65536;
    let first = u64::from(key.first).wrapping_mul(0x9e3779b97f4a7c15);
    let second = u64::from(key.second).wrapping_mul(0xd1342543de82ef95);
    let units = first.wrapping_add(second);
    units.wrapping_add(ticket.wrapping_mul(0xc2b2ae3d27d4eb4f))
}
