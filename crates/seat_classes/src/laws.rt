//! What the seats of rows mean in a book.
ghost use Rattle.std.specs.Prelude.{◌≡◌, ℕ, List};
ghost use Rattle.fare_law.specs.Book.{Book, live_seats, row_seats, seats};
ghost use Rattle.fare_law.specs.declared.filings.SeatKey.{SeatKey};
ghost use Rattle.fare_law.specs.declared.flights.Flight.{Flight};
ghost use Rattle.seat_classes.specs.Given.{rows_have};
ghost use Rattle.seat_classes.specs.Held.{seats_at, seats_in};

/// Before any filing a book has what the rows of its timetable have.
pub fn rows_begin_a_book()
    ensures { (book : Book) (key : SeatKey) → row_seats book key ≡ rows_have book.timetable.seats key }
{}

/// Rows that have, of each key, the live seats of a book give each flight the book's seats.
pub fn live_rows_seat_flights()
    ensures { (book : Book) (held : List (SeatKey × List ℕ)) → ((key : SeatKey) → seats_at held key ≡ live_seats book key) → (flight : Flight) (class : ℕ) → seats_in held flight class ≡ seats book flight class }
{}
