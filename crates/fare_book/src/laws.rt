//! Laws of the faults of seat rows and of filings.
ghost use Rattle.std.specs.Prelude.{◌≡◌, ℕ, List, map};
ghost use Rattle.fare_law.specs.declared.filings.BookWhy.{BookWhy};
ghost use Rattle.fare_law.specs.declared.filings.Filing.{Filing};
ghost use Rattle.fare_law.specs.declared.rows.SeatRow.{SeatRow};
ghost use Rattle.fare_law.specs.Book.{Book as Version, row_key};
ghost use Rattle.fare_law.specs.Faults.{Fault};
ghost use Rattle.fare_law.specs.Lists.{AllDifferent};
ghost use Rattle.seat_classes.specs.Given.{FirstRepeat};

/// A filing has one fault at most in a book.
pub fn one_fault_of_filings()
    ensures { (book : Version) (filing : Filing) (at other : ℕ) (why reason : BookWhy)
        → Fault book filing at why → Fault book filing other reason → (at ≡ other) × (why ≡ reason) }
{}

/// Seat rows have one fault at most, and none where no two have one carrier, number, origin and date
/// field.
pub fn one_fault_of_seats()
    ensures one { (rows : List SeatRow) (line other : ℕ)
        → FirstRepeat rows line → FirstRepeat rows other → line ≡ other }
    ensures none { (rows : List SeatRow) (line : ℕ)
        → AllDifferent (map row_key rows) → FirstRepeat rows line → ⊥ }
{}
