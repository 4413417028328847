//! Where a search begins.
ghost use Rattle.std.specs.Prelude.{◌≡◌, ◌≤◌, [], None, length, slice_get, Some};
ghost use Rattle.fare_law.specs.Limits.{IsRequest};
ghost use Rattle.flight_paths.specs.declared.positions.Position.{Position};
ghost use Rattle.flight_paths.specs.Positions.{before_slice};
ghost use Rattle.residual_keys.specs.ResidualText.{IsWritten};
ghost use Rattle.residual_keys.specs.Residuals.{no_part};

use crate::component::schedule_of;
use crate::laws::reached_is_written;
use crate::limits::book_limits;
use crate::{Residual, TicketPart};
use fare_book::Book;
use fare_law::Request;
use flight_paths::root_position;
use open_unit::CarrierMark;

/// The residual before the first slice of a request: no unit is open, and no fare asks anything yet.
/// It has a text where the request is within its limits.
pub fn root(book: &Book, request: &Request) -> Residual
    requires { 1 ≤ length request.now.slices }
    ensures root { (at : Position) → before_slice book.now 0 (slice_get request.now.slices 0) None ≡ Some at → result ≡ record { at = at; units = []; part = no_part } }
    ensures written { IsRequest request.now → IsWritten result }
{
    book_limits(book);
    reached_is_written();
    let at = root_position(schedule_of(book), request);
    let part = TicketPart {
        units: 0,
        ends: 0,
        carrier: CarrierMark::NotYet,
    };
    Residual::new(at, None, None, part)
}
