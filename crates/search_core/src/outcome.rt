//! What a search answers.
ghost use Rattle.std.specs.Prelude.{◌≡◌};

use certificate::Certificate;
use fare_law::{List, Mem, Priced, Why};
use pricing_graph::GraphFault;

/// The answer of a search.
#[derive(Drop)]
pub struct Answer {
    /// The version that was searched: how many filings it has.
    pub number: u32,
    /// Ascending by price and code.
    pub tickets: List<Priced>,
    pub certificate: Certificate,
}

/// Why there is no answer.
#[derive(Clone, Copy, PartialEq, Eq, Debug)]
pub enum SearchFault {
    /// The request is none.
    BadRequest(Why),
    /// More residuals are reached than the budget allows.
    TooLarge,
    /// Want of memory.
    Mem,
}

impl From<Mem> for SearchFault {
    ghost use Rattle.search_core.specs.declared.outcome.SearchFault.TheVariants.{Mem};

    ghost from_gives = { λ _ e. e ≡ Mem };

    fn from(_error: Mem) -> SearchFault {
        SearchFault::Mem
    }
}

impl From<Why> for SearchFault {
    ghost use Rattle.search_core.specs.declared.outcome.SearchFault.TheVariants.{BadRequest};

    ghost from_gives = { λ why e. e ≡ BadRequest why };

    fn from(why: Why) -> SearchFault {
        SearchFault::BadRequest(why)
    }
}

impl From<GraphFault> for SearchFault {
    ghost use Rattle.search_core.specs.Graphs.{fault_as};

    ghost from_gives = { λ fault e. e ≡ fault_as fault };

    fn from(fault: GraphFault) -> SearchFault {
        match fault {
            GraphFault::TooLarge { .. } => SearchFault::TooLarge,
            GraphFault::Mem => SearchFault::Mem,
        }
    }
}
