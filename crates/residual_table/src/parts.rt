//! What residuals consist of, by numbers.
ghost use Rattle.std.specs.Prelude.{◌≡◌, IfOk};
ghost use Rattle.residual_table.specs.Keys.{AreTables, no_tables};

use fare_law::Mem;
use flight_paths::Position;
use indexmap::IndexSet;
use open_unit::OpenUnit;
use std::alloc::Global;
use std::marker::Model;

/// The positions and open units of residuals, each once, by numbers from 0 in the order in which they came.
#[derive(Drop)]
pub struct ResidualParts {
    pub(crate) positions: IndexSet<Position>,
    pub(crate) units: IndexSet<OpenUnit>,
}

impl Model for ResidualParts {
    ghost use Rattle.residual_table.specs.Keys.{AreTables, Tables};

    ghost Value = { Tables };

    ghost view = { λ t. record { positions = t.positions.keys; units = t.units.keys } };

    ghost invariant = { λ t. AreTables (record { positions = t.positions.keys; units = t.units.keys }) };
}

impl ResidualParts {
    /// None yet.
    pub fn new(alloc: Global) -> ResidualParts
        ensures { result ≡ no_tables }
    {
        ResidualParts {
            positions: IndexSet::new(alloc),
            units: IndexSet::new(alloc),
        }
    }

    /// The same parts by the same numbers.
    pub fn copied(&self) -> Result<ResidualParts, Mem>
        ensures { IfOk result (λ parts. parts ≡ self.now) }
    {
        Ok(ResidualParts {
            positions: self.positions.clone()?,
            units: self.units.clone()?,
        })
    }

    /// What the type keeps of all tables.
    pub fn keeps(&self)
        ensures { AreTables self.now }
    {
        let _count = self.positions.len();
    }
}
