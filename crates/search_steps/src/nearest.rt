//! The least moves of a residual, by what the table of its position lets expect of them.
ghost use Rattle.std.specs.Prelude.{◌≡◌, ◌<◌, ◌+◌, IfOk, length};
ghost use Rattle.cheap_moves.specs.Leads.{AreLeads};
ghost use Rattle.fare_law.specs.Limits.{IsRequest};
ghost use Rattle.residual_table.specs.Keys.{KeepsNumbers};
ghost use Rattle.search_steps.specs.LeastMoves.{AreLeastMoves, HasBound};
ghost use Rattle.search_steps.specs.Tables.{AreTables};

use crate::least::least_of_each;
use crate::tables::Tables;
use crate::{Case, LeastMove};
use cheap_moves::{Lead, MoveSearch, ResidualBounds, leads_of, least_moves};
use fare_law::{List, Mem};
use residual_keys::Residual;
use std::alloc::Global;

/// The moves of a residual that count under bounds, the first `wanted` of them by total and code. Its slice
/// is one of the request's.
pub fn least_by<B: ResidualBounds>(
    alloc: Global,
    case: &Case,
    tables: &mut Tables,
    residual: &Residual,
    bounds: &B,
    wanted: usize,
) -> Result<List<LeastMove<Residual>>, Mem>
    requires request { IsRequest case.now.request.now }
    requires known { residual.now.at.slice < length case.now.request.now.slices }
    requires right { AreTables case.now.book.now case.now.request.now tables.old }
    ensures right { AreTables case.now.book.now case.now.request.now tables.new }
    ensures stays { KeepsNumbers tables.old.kept.items tables.new.kept.items }
    ensures least { IfOk result (AreLeastMoves case.now.book.now case.now.request.now (HasBound (B.bound bounds.now)) residual.now wanted) }
{
    let leads = leads_by(alloc, case, tables, residual, bounds)?;
    let search = MoveSearch {
        book: case.book,
        request: case.request,
        residual,
        bounds,
        limit: None,
    };
    least_over(alloc, &search, leads.as_slice(), tables, wanted)
}

/// The leads of a residual, by the table of its position.
fn leads_by<B: ResidualBounds>(
    alloc: Global,
    case: &Case,
    tables: &mut Tables,
    residual: &Residual,
    bounds: &B,
) -> Result<List<Lead>, Mem>
    requires request { IsRequest case.now.request.now }
    requires right { AreTables case.now.book.now case.now.request.now tables.old }
    ensures right { AreTables case.now.book.now case.now.request.now tables.new }
    ensures stays { KeepsNumbers tables.old.kept.items tables.new.kept.items }
    ensures leads { IfOk result (AreLeads case.now.book.now case.now.request.now residual.now (B.bound bounds.now)) }
{
    let at = residual.at;
    let place = tables.find(alloc, case, &at)?;
    let table = &tables.kept[place];
    let search = MoveSearch {
        book: case.book,
        request: case.request,
        residual,
        bounds,
        limit: None,
    };
    leads_of(alloc, &search, table.entries.as_slice())
}

/// The least moves that are searched for, over the tails and the markets of the tables.
fn least_over<B: ResidualBounds>(
    alloc: Global,
    search: &MoveSearch<'_, B>,
    leads: &[Lead],
    tables: &mut Tables,
    wanted: usize,
) -> Result<List<LeastMove<Residual>>, Mem>
    requires request { IsRequest search.now.request.now }
    requires known { search.now.residual.now.at.slice < length search.now.request.now.slices }
    requires leads { AreLeads search.now.book.now search.now.request.now search.now.residual.now (B.bound search.now.bounds.now) leads.now }
    requires right { AreTables search.now.book.now search.now.request.now tables.old }
    ensures right { AreTables search.now.book.now search.now.request.now tables.new }
    ensures kept { tables.new.kept.items ≡ tables.old.kept.items }
    ensures least { IfOk result (AreLeastMoves search.now.book.now search.now.request.now (HasBound (B.bound search.now.bounds.now)) search.now.residual.now wanted) }
{
    let residual = search.residual;
    let at = residual.at;
    let network = &mut tables.network;
    let place = network.find_tails(alloc, search.book, search.request, at.slice + 1)?;
    let found = least_moves(
        alloc,
        search,
        leads,
        network.tails[place].paths.as_slice(),
        &mut network.markets,
        wanted,
    )?;
    least_of_each(alloc, found.as_slice())
}
