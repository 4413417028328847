//! The headers of a case.
ghost use Rattle.std.specs.Prelude.{◌≡◌, Some};
ghost use Rattle.case_text.specs.declared.kinds.CaseKind.TheVariants.{Search, Check, Serve, Verdict};
ghost use Rattle.case_text.specs.Headers as Headers;

use crate::CaseKind;

/// A line that begins a section, or ends the case.
#[derive(Clone, Copy)]
pub enum Header {
    Places,
    Flights,
    Seats,
    Filings,
    Later,
    Request,
    Script,
    Certificate,
    Ticket,
    End,
}

impl Header {
    /// The line that the header is.
    pub fn name(self) -> &'static [u8]
        ensures { result.now ≡ Headers.name_of self }
    {
        match self {
            Header::Places => b"#places",
            Header::Flights => b"#flights",
            Header::Seats => b"#seats",
            Header::Filings => b"#filings",
            Header::Later => b"#later",
            Header::Request => b"#request",
            Header::Script => b"#script",
            Header::Certificate => b"#certificate",
            Header::Ticket => b"#ticket",
            Header::End => b"#end",
        }
    }
}

/// Whether the text is a header of some kind of case.
pub fn is_name(text: &[u8]) -> bool
    ensures { result ≡ Headers.is_name text.now }
{
    text == Header::Places.name()
        || text == Header::Flights.name()
        || text == Header::Seats.name()
        || text == Header::Filings.name()
        || text == Header::Later.name()
        || text == Header::Request.name()
        || text == Header::Script.name()
        || text == Header::Certificate.name()
        || text == Header::Ticket.name()
        || text == Header::End.name()
}

/// The header that is due in a case of this kind: the first one, or the one after the last met.
pub fn due(kind: CaseKind, under: Option<Header>) -> Option<Header>
    ensures { result ≡ Headers.due kind under }
{
    match under {
        None => Some(Header::Places),
        Some(header) => match kind {
            CaseKind::Search => due_in_search(header),
            CaseKind::Check => due_in_check(header),
            CaseKind::Serve => due_in_serve(header),
            CaseKind::Verdict => due_in_verdict(header),
        },
    }
}

fn due_in_search(header: Header) -> Option<Header>
    ensures { result ≡ Headers.due Search (Some header) }
{
    match header {
        Header::Places => Some(Header::Flights),
        Header::Flights => Some(Header::Seats),
        Header::Seats => Some(Header::Filings),
        Header::Filings => Some(Header::Request),
        Header::Request => Some(Header::End),
        _ => None,
    }
}

fn due_in_check(header: Header) -> Option<Header>
    ensures { result ≡ Headers.due Check (Some header) }
{
    match header {
        Header::Request => Some(Header::Certificate),
        Header::Certificate => Some(Header::End),
        _ => due_in_search(header),
    }
}

fn due_in_serve(header: Header) -> Option<Header>
    ensures { result ≡ Headers.due Serve (Some header) }
{
    match header {
        Header::Filings => Some(Header::Later),
        Header::Later => Some(Header::Request),
        Header::Request => Some(Header::Script),
        Header::Script => Some(Header::End),
        _ => due_in_search(header),
    }
}

fn due_in_verdict(header: Header) -> Option<Header>
    ensures { result ≡ Headers.due Verdict (Some header) }
{
    match header {
        Header::Request => Some(Header::Ticket),
        Header::Ticket => Some(Header::End),
        _ => due_in_search(header),
    }
}
