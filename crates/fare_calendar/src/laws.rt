//! Laws for callers' proofs. They have no code.
ghost use Rattle.fare_calendar.specs.Cells.{CellHas, CellsLeast, LeastPrice, over_days, cell};
ghost use Rattle.fare_calendar.specs.BestOfCells.{CellsAreEmpty, CellsCost, FirstCosts};
ghost use Rattle.fare_law.specs.Best.{Best};
ghost use Rattle.fare_law.specs.Book.{Book};
ghost use Rattle.fare_law.specs.Lawful.{Lawful};
ghost use Rattle.fare_law.specs.declared.requests.Request.{Request};
ghost use Rattle.fare_law.specs.declared.tickets.Ticket.{Ticket};
ghost use Rattle.std.specs.Prelude.{◌≡◌, ℕ, ◌↔◌, length, ◌≤◌, ◌<◌, List, []};

/// A ticket is lawful for the request over all days exactly where it is lawful for a cell. So the least price over
/// all days is the least over the cells.
pub fn cells_cover()
    ensures lawful { (t : Ticket) (b : Book) (q : Request) (outs backs : ℕ) → length q.slices ≡ 2 → Lawful t b (over_days q outs backs) ↔ CellHas b q outs backs t }
    ensures least { (b : Book) (q : Request) (outs backs price : ℕ) → length q.slices ≡ 2 → LeastPrice b (over_days q outs backs) price ↔ CellsLeast b q outs backs price }
{}

/// The best ticket over all the days of a calendar costs the least of what the cells' best tickets cost, and there is
/// none exactly where no cell has one.
pub fn cells_have_the_best()
    ensures least { (b : Book) (q : Request) (outs backs price : ℕ) → length q.slices ≡ 2 → FirstCosts b (over_days q outs backs) price → CellsCost b q outs backs price }
    ensures none { (b : Book) (q : Request) (outs backs : ℕ) → length q.slices ≡ 2 → 1 ≤ q.best → Best b (over_days q outs backs) [] → CellsAreEmpty b q outs backs }
    ensures empty { (b : Book) (q : Request) (outs backs : ℕ) → length q.slices ≡ 2 → ((i j : ℕ) → i < outs → j < backs → Best b (cell q i j) [])
        → (best : List Ticket) → Best b (over_days q outs backs) best → best ≡ [] }
{
    cells_cover();
}
