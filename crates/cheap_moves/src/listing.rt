//! The least moves of a residual, gathered path by path under a limit that sinks.
ghost use Rattle.std.specs.Prelude.{◌≡◌, ◌<◌, ◌+◌, length, IfOk};
ghost use Rattle.cheap_moves.specs.Leads.{AreLeads};
ghost use Rattle.cheap_moves.specs.LeastMoves.{AreLeastMoves, Counts, IsSooner};
ghost use Rattle.cheap_moves.specs.Tails.{AreTailsOver};
ghost use Rattle.fare_ends.specs.Markets.{AreMarkets};
ghost use Rattle.fare_law.specs.Limits.{IsRequest};
ghost use Rattle.fare_law.specs.Lists.{KLeast};

use crate::MoveSearch;
use crate::bounds::ResidualBounds;
use crate::drawing::{Draw, draw_all};
use crate::hopes::hopes_of;
use crate::leads::{Lead, by_group};
use crate::least::{CountedMove, keep_first};
use component_table::Markets;
use fare_law::{List, Mem};
use flight_paths::Path;
use residual_keys::book_limits;
use std::alloc::Global;
use ticket_order::{codes_tell, order_laws};

/// The moves of a residual that count under bounds, the first `wanted` of them by total and code. The leads tell on
/// which paths they may be; the tails are all of the next slice. The markets that it needs are found once for a
/// search. The limit of the search isn't read.
pub fn least_moves<B: ResidualBounds>(
    alloc: Global,
    search: &MoveSearch<'_, B>,
    leads: &[Lead],
    tails: &[Path],
    markets: &mut Markets,
    wanted: usize,
) -> Result<List<CountedMove>, Mem>
    requires request { IsRequest search.now.request.now }
    requires known { search.now.residual.now.at.slice < length search.now.request.now.slices }
    requires leads { AreLeads search.now.book.now search.now.request.now search.now.residual.now (B.bound search.now.bounds.now) leads.now }
    requires tails { AreTailsOver search.now.book.now search.now.request.now.slices (search.now.residual.now.at.slice + 1) tails.now }
    requires markets { AreMarkets search.now.book.now markets.old.kept.items }
    ensures markets { AreMarkets search.now.book.now markets.new.kept.items }
    ensures least { IfOk result (AreLeastMoves search.now.book.now search.now.request.now search.now.residual.now (B.bound search.now.bounds.now) wanted) }
{
    let limit = guessed_limit(alloc, leads, wanted)?;
    let leads = by_group(alloc, leads)?;
    let guessed = MoveSearch {
        book: search.book,
        request: search.request,
        residual: search.residual,
        bounds: search.bounds,
        limit,
    };
    let least = least_within(alloc, &guessed, leads.as_slice(), tails, markets, wanted)?;
    if least.len() == wanted {
        return Ok(least);
    }
    match limit {
        Some(_limit) => {
            let all = MoveSearch {
                book: search.book,
                request: search.request,
                residual: search.residual,
                bounds: search.bounds,
                limit: None,
            };
            least_within(alloc, &all, leads.as_slice(), tails, markets, wanted)
        }
        None => Ok(least),
    }
}

/// A limit within which there are as many moves as are wanted, since each lead is that of a move: the total of the last of so many
/// leads. Where there are fewer, each may be that of many moves, and the least is tried. None: no limit. It is a guess: where too
/// few moves are within it, all are listed.
fn guessed_limit(alloc: Global, leads: &[Lead], wanted: usize) -> Result<Option<u128>, Mem> {
    let mut totals = Vec::with_capacity(alloc, leads.len())?;
    for lead in leads {
        totals.push(lead.total)?;
    }
    totals.sort_unstable();
    let last = if wanted <= totals.len() { wanted } else { 1 };
    Ok(match last {
        0 => None,
        _ => totals.get(last - 1).copied(),
    })
}

/// The first `wanted` of the moves that count within the limit of the search.
fn least_within<'x, B: ResidualBounds>(
    alloc: Global,
    search: &'x MoveSearch<'x, B>,
    leads: &'x [Lead],
    tails: &'x [Path],
    markets: &mut Markets,
    wanted: usize,
) -> Result<List<CountedMove>, Mem>
    requires request { IsRequest search.now.request.now }
    requires known { search.now.residual.now.at.slice < length search.now.request.now.slices }
    requires leads { AreLeads search.now.book.now search.now.request.now search.now.residual.now (B.bound search.now.bounds.now) leads.now }
    requires tails { AreTailsOver search.now.book.now search.now.request.now.slices (search.now.residual.now.at.slice + 1) tails.now }
    requires markets { AreMarkets search.now.book.now markets.old.kept.items }
    ensures markets { AreMarkets search.now.book.now markets.new.kept.items }
    ensures least { IfOk result (KLeast (Counts search.now.book.now search.now.request.now search.now.residual.now (B.bound search.now.bounds.now) search.now.limit) IsSooner wanted) }
{
    order_laws();
    codes_tell();
    book_limits(search.book);
    let hopes = hopes_of(alloc, search, leads)?;
    let draw = Draw {
        search,
        leads,
        hopes: &hopes,
        tails,
        wanted,
    };
    let mut drawn = draw_all(alloc, &draw, markets)?;
    keep_first(&mut drawn.kept, wanted);
    Ok(List::from_vec(drawn.kept))
}
