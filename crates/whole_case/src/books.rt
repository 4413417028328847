//! The book of a case, and what is read after it.
ghost use Rattle.std.specs.Prelude.{◌≡◌, ◌≤◌, ◌<◌, ◌+◌, ◌^◌, length, IfOk};
ghost use Rattle.case_text.specs.Limits.{MayAsk};
ghost use Rattle.fare_law.specs.Limits.{IsFlightRow, IsPlaceRow};
ghost use Rattle.fare_law.specs.Lists.{Each};
ghost use Rattle.whole_case.specs.Books as Books;
ghost use Rattle.whole_case.specs.Stages.{Reads};

use crate::LoadFault;
use crate::histories::filed_version;
use crate::rows::{opening_of, sections_in};
use case_text::{CaseKind, CaseLine, MOST_FILINGS};
use fare_book::Book;
use fare_law::{FlightRow, List, MOST_SEAT_ROWS, PlaceRow, SeatRow, TextLine};
use std::alloc::Global;

/// The version of the book that a case is about, and the lines of its other sections.
#[derive(Drop)]
pub struct FiledCase<'a> {
    pub book: Book,
    pub filings: List<CaseLine<'a>>,
    pub later: List<CaseLine<'a>>,
    pub requests: List<CaseLine<'a>>,
    pub script: List<TextLine>,
    pub certificate: List<CaseLine<'a>>,
    pub ticket: List<TextLine>,
    /// The line of `#end`.
    pub end: u32,
}

impl FiledCase<'_> {
    /// The book, without the lines.
    pub fn into_book(self) -> Book
        ensures { result ≡ self.entry.book }
    {
        self.book
    }
}

/// The case of this kind that the bytes spell, up to its filings.
pub fn filed_case(
    alloc: Global,
    bytes: &[u8],
    kind: CaseKind,
    at: Option<u32>,
) -> Result<FiledCase<'_>, LoadFault>
    requires { length bytes.now + 1 < 2 ^ 32 }
    ensures case { Reads result (Books.filed_case kind at bytes.now) }
    ensures later { IfOk result (λ filed. length filed.later ≤ MOST_FILINGS) }
    ensures requests { IfOk result (λ filed. MayAsk kind (length filed.requests)) }
{
    let case = sections_in(alloc, bytes, kind)?;
    let book = book_in(
        alloc,
        case.places,
        case.flights,
        case.seats,
        &case.filings,
        at,
    )?;
    Ok(FiledCase {
        book,
        filings: case.filings,
        later: case.later,
        requests: case.requests,
        script: case.script,
        certificate: case.certificate,
        ticket: case.ticket,
        end: case.end,
    })
}

/// The version that is asked for of the book of these rows. They are let go once the book has them.
fn book_in(
    alloc: Global,
    places: List<PlaceRow>,
    flights: List<FlightRow>,
    seats: List<SeatRow>,
    filings: &List<CaseLine<'_>>,
    at: Option<u32>,
) -> Result<Book, LoadFault>
    requires places { Each IsPlaceRow places }
    requires flights { Each IsFlightRow flights }
    requires seats { length seats ≤ MOST_SEAT_ROWS }
    ensures { Reads result (Books.book_in places flights seats filings.now at) }
{
    let opening = opening_of(alloc, places, flights, seats)?;
    filed_version(alloc, opening, filings, at)
}
