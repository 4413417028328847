//! What a line is where it stands.
ghost use Rattle.std.specs.Prelude.{◌≡◌, IfOk, IfSome};
ghost use Rattle.csv.specs.Records.{fields_of};
ghost use Rattle.case_text.specs.declared.contents.Entry.TheVariants.{Place, Flight, Seat};
ghost use Rattle.case_text.specs.Readers.{HasFields};
ghost use Rattle.case_text.specs.Rows as Rows;
ghost use Rattle.case_text.specs.Entries as Entries;
ghost use Rattle.case_text.specs.Gives.{Told, row_fault as row_fault_of};
ghost use Rattle.case_text.specs.Limits.{KeepsLimits};
ghost use Rattle.case_text.specs.Lines.{shown};

use crate::contents::Entry;
use crate::headers::{Header, due, is_name};
use crate::rows::{flight_fields, flight_row, place_fields, place_row, seat_fields, seat_row};
use crate::standing::Standing;
use crate::{
    CaseFault, CaseKind, CaseLine, Line, MOST_FILINGS, MOST_FLIGHT_ROWS, MOST_PLACES,
    MOST_REQUESTS, MOST_SCRIPT_LINES, RowFault,
};
use csv::ByteRecord;
use fare_law::MOST_SEAT_ROWS;
use std::alloc::Global;

/// What the line is, or its fault. Its fields are given where they were read with other lines.
pub fn judged<'a>(
    alloc: Global,
    kind: CaseKind,
    standing: Standing,
    line: &Line<'a>,
    fields: Option<&ByteRecord>,
) -> Result<Entry<'a>, CaseFault>
    requires { IfSome fields (λ row. HasFields (fields_of row.now) line.now.bytes.now) }
    ensures told { Told result (Entries.judged kind standing (shown line.now)) }
    ensures limits { IfOk result KeepsLimits }
{
    if standing.is_over() {
        Err(CaseFault::AfterEnd { line: line.line })
    } else if is_header(standing.under, line.bytes) {
        header(kind, standing, line)
    } else {
        match standing.under {
            None => Err(CaseFault::Order { line: line.line }),
            Some(header) => {
                let entry = entry_of(alloc, header, line, fields)?;
                if has_room(limit(kind, header), standing.count) {
                    Ok(entry)
                } else {
                    Err(CaseFault::TooMany { line: line.line })
                }
            }
        }
    }
}

/// Whether a line under this header is a header.
fn is_header(under: Option<Header>, line: &[u8]) -> bool
    ensures { result ≡ Entries.is_header under line.now }
{
    match under {
        Some(Header::Certificate) => line == Header::End.name(),
        _ => begins_header(line),
    }
}

fn begins_header(line: &[u8]) -> bool
    ensures { result ≡ Entries.begins_header line.now }
{
    match line {
        [first, ..] => *first == b'#',
        [] => false,
    }
}

fn header<'a>(kind: CaseKind, standing: Standing, line: &Line<'a>) -> Result<Entry<'a>, CaseFault>
    ensures told { result ≡ Entries.header_judged kind standing (shown line.now) }
    ensures limits { IfOk result KeepsLimits }
{
    if !is_name(line.bytes) {
        return Err(CaseFault::UnknownSection { line: line.line });
    }
    if wants_request(kind, standing) {
        return Err(CaseFault::Order { line: line.line });
    }
    match due(kind, standing.under) {
        Some(header) => {
            if line.bytes == header.name() {
                Ok(Entry::Opens(header, line.line))
            } else {
                Err(CaseFault::Order { line: line.line })
            }
        }
        None => Err(CaseFault::Order { line: line.line }),
    }
}

/// Whether the line before has to be followed by the one request.
fn wants_request(kind: CaseKind, standing: Standing) -> bool
    ensures { result ≡ Entries.wants_request kind standing }
{
    matches!(standing.under, Some(Header::Request)) && has_one_request(kind) && standing.count == 0
}

/// Whether a case of this kind has just one request.
fn has_one_request(kind: CaseKind) -> bool
    ensures { result ≡ Entries.has_one_request kind }
{
    !matches!(kind, CaseKind::Serve)
}

/// The number of lines that a section may have, if it has a limit.
fn limit(kind: CaseKind, header: Header) -> Option<usize>
    ensures { result ≡ Entries.limit kind header }
{
    match header {
        Header::Places => Some(MOST_PLACES),
        Header::Flights => Some(MOST_FLIGHT_ROWS),
        Header::Seats => Some(MOST_SEAT_ROWS),
        Header::Filings => Some(MOST_FILINGS),
        Header::Later => Some(MOST_FILINGS),
        Header::Request => {
            if has_one_request(kind) {
                Some(1)
            } else {
                Some(MOST_REQUESTS)
            }
        }
        Header::Script => Some(MOST_SCRIPT_LINES),
        _ => None,
    }
}

fn has_room(limit: Option<usize>, count: usize) -> bool
    ensures { result ≡ Entries.has_room limit count }
{
    match limit {
        Some(most) => count < most,
        None => true,
    }
}

/// What a line under this header is, whatever stands before it.
fn entry_of<'a>(
    alloc: Global,
    header: Header,
    line: &Line<'a>,
    fields: Option<&ByteRecord>,
) -> Result<Entry<'a>, CaseFault>
    requires { IfSome fields (λ row. HasFields (fields_of row.now) line.now.bytes.now) }
    ensures told { Told result (Entries.entry_of header (shown line.now)) }
    ensures limits { IfOk result KeepsLimits }
{
    match header {
        Header::Places => place(alloc, line, fields),
        Header::Flights => flight(alloc, line, fields),
        Header::Seats => seat(alloc, line, fields),
        _ => Ok(Entry::Text(header, CaseLine::of(line))),
    }
}

fn place<'a>(
    alloc: Global,
    line: &Line<'a>,
    fields: Option<&ByteRecord>,
) -> Result<Entry<'a>, CaseFault>
    requires { IfSome fields (λ row. HasFields (fields_of row.now) line.now.bytes.now) }
    ensures told { Told result (Entries.row_judged Place (shown line.now) (Rows.place_row (shown line.now))) }
    ensures limits { IfOk result KeepsLimits }
{
    let row = match fields {
        Some(row) => place_fields(row, line),
        None => place_row(alloc, line),
    };
    match row {
        Ok(row) => Ok(Entry::Place(row)),
        Err(fault) => Err(row_fault(line.line, fault)),
    }
}

fn flight<'a>(
    alloc: Global,
    line: &Line<'a>,
    fields: Option<&ByteRecord>,
) -> Result<Entry<'a>, CaseFault>
    requires { IfSome fields (λ row. HasFields (fields_of row.now) line.now.bytes.now) }
    ensures told { Told result (Entries.row_judged Flight (shown line.now) (Rows.flight_row (shown line.now))) }
    ensures limits { IfOk result KeepsLimits }
{
    let row = match fields {
        Some(row) => flight_fields(row, line),
        None => flight_row(alloc, line),
    };
    match row {
        Ok(row) => Ok(Entry::Flight(row)),
        Err(fault) => Err(row_fault(line.line, fault)),
    }
}

fn seat<'a>(
    alloc: Global,
    line: &Line<'a>,
    fields: Option<&ByteRecord>,
) -> Result<Entry<'a>, CaseFault>
    requires { IfSome fields (λ row. HasFields (fields_of row.now) line.now.bytes.now) }
    ensures told { Told result (Entries.row_judged Seat (shown line.now) (Rows.seat_row (shown line.now))) }
    ensures limits { IfOk result KeepsLimits }
{
    let row = match fields {
        Some(row) => seat_fields(row, line),
        None => seat_row(alloc, line),
    };
    match row {
        Ok(row) => Ok(Entry::Seat(row)),
        Err(fault) => Err(row_fault(line.line, fault)),
    }
}

/// The fault of a case whose row has this fault.
fn row_fault(line: u32, fault: RowFault) -> CaseFault
    ensures { result ≡ row_fault_of line fault }
{
    match fault {
        RowFault::BadColumn(column) => CaseFault::BadRow { line, column },
        RowFault::Mem => CaseFault::Mem,
    }
}
