//! What stands in a case.
ghost use Rattle.std.specs.Prelude.{◌≡◌, IfOk, OnOk};
ghost use Rattle.case_text.specs.Contents.{added, line_added, no_contents, after_header};

use crate::CaseLine;
use crate::headers::Header;
use fare_law::{FlightRow, List, MOST_SEAT_ROWS, Mem, PlaceRow, SeatRow, TextLine};
use std::alloc::Global;

/// The rows and lines of a case by their sections. A section that the kind of case doesn't have is
/// empty. Filings, requests and certificates are read where they stand in the text.
#[derive(Drop)]
pub struct Case<'a> {
    pub places: List<PlaceRow>,
    pub flights: List<FlightRow>,
    pub seats: List<SeatRow>,
    pub filings: List<CaseLine<'a>>,
    pub later: List<CaseLine<'a>>,
    pub requests: List<CaseLine<'a>>,
    pub script: List<TextLine>,
    pub certificate: List<CaseLine<'a>>,
    pub ticket: List<TextLine>,
    /// The line of `#end`.
    pub end: u32,
}

/// What a line is: a header with its line, a row of a table, or a line of another section.
#[derive(Drop)]
pub enum Entry<'a> {
    Opens(Header, u32),
    Place(PlaceRow),
    Flight(FlightRow),
    Seat(SeatRow),
    Text(Header, CaseLine<'a>),
}

impl<'a> Case<'a> {
    /// A case with nothing in it, with room for the seat rows of so many lines.
    pub(crate) fn new(alloc: Global, lines: usize) -> Result<Case<'a>, Mem>
        ensures { IfOk result (λ case. case ≡ no_contents) }
    {
        let seats = Vec::with_capacity(alloc, lines.min(MOST_SEAT_ROWS))?;
        Ok(Case {
            places: List::new(alloc),
            flights: List::new(alloc),
            seats: List::from_vec(seats),
            filings: List::new(alloc),
            later: List::new(alloc),
            requests: List::new(alloc),
            script: List::new(alloc),
            certificate: List::new(alloc),
            ticket: List::new(alloc),
            end: 0,
        })
    }

    /// Adds an entry at the end of its section. A header adds nothing but the line of `#end`.
    pub(crate) fn add(&mut self, alloc: Global, entry: Entry<'a>) -> Result<(), Mem>
        ensures { OnOk result (self.new ≡ added self.old entry.entry) }
    {
        match entry {
            Entry::Opens(header, line) => {
                self.open(header, line);
                Ok(())
            }
            Entry::Place(row) => self.places.push(row),
            Entry::Flight(row) => self.flights.push(row),
            Entry::Seat(row) => self.seats.push(row),
            Entry::Text(header, line) => self.add_line(alloc, header, line),
        }
    }

    fn open(&mut self, header: Header, line: u32)
        ensures { self.new ≡ after_header self.old header line }
    {
        if matches!(header, Header::End) {
            self.end = line;
        }
    }

    fn add_line(&mut self, alloc: Global, header: Header, line: CaseLine<'a>) -> Result<(), Mem>
        ensures { OnOk result (self.new ≡ line_added self.old header line.entry) }
    {
        match header {
            Header::Filings => self.filings.push(line),
            Header::Later => self.later.push(line),
            Header::Request => self.requests.push(line),
            Header::Script => self.script.push(line.owned(alloc)?),
            Header::Certificate => self.certificate.push(line),
            Header::Ticket => self.ticket.push(line.owned(alloc)?),
            _ => Ok(()),
        }
    }
}
