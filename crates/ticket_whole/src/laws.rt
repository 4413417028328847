//! Laws for callers' proofs. They have no code.
ghost use Rattle.fare_law.specs.Book.{Book};
ghost use Rattle.fare_law.specs.Lawful.{Lawful};
ghost use Rattle.fare_law.specs.Parts.{Part};
ghost use Rattle.fare_law.specs.Units.{IsUnit};
ghost use Rattle.fare_law.specs.declared.requests.Request.{Request};
ghost use Rattle.fare_law.specs.declared.rules.UnitKind.{UnitKind};
ghost use Rattle.fare_law.specs.declared.tickets.Piece.{Piece};
ghost use Rattle.fare_law.specs.declared.tickets.Ticket.{Ticket};
ghost use Rattle.std.specs.Prelude.{◌≡◌, ◌↔◌, List};
ghost use Rattle.ticket_whole.specs.Breaches.{PartMeets, FirstBreach, Met};
ghost use Rattle.ticket_whole.specs.Categories.{CategoryMeets};
ghost use Rattle.ticket_whole.specs.declared.breach.Breach.{Breach};
ghost use Rattle.ticket_whole.specs.declared.demand.CategoryDemand.TheVariants.{Season, Advance, LeastStay, GreatestStay};
ghost use Rattle.ticket_whole.specs.declared.demand.Demand.{Demand};
ghost use Rattle.ticket_whole.specs.declared.demand.UnitDemand.TheVariants.{FirstDay, Stay};

/// A unit has one kind at most.
pub fn one_kind()
    ensures { (one other : UnitKind) (unit : List Piece) → IsUnit one unit → IsUnit other unit → one ≡ other }
{}

/// The demand on a unit's first day is that of category 3 and that of category 5.
pub fn first_day_by_category()
    ensures { (parts : List Part) (part : Part) → PartMeets parts FirstDay part ↔ (CategoryMeets parts Season part × CategoryMeets parts Advance part) }
{}

/// The demand on a unit's stay is that of category 6 and that of category 7.
pub fn stay_by_category()
    ensures { (parts : List Part) (part : Part) → PartMeets parts Stay part ↔ (CategoryMeets parts LeastStay part × CategoryMeets parts GreatestStay part) }
{}

/// A ticket is lawful exactly where it meets each demand.
pub fn lawful_where_met()
    ensures { (t : Ticket) (b : Book) (q : Request) → Lawful t b q ↔ ((demand : Demand) → Met b q t demand) }
{}

/// A ticket has one first breach at most.
pub fn one_first_breach()
    ensures { (t : Ticket) (b : Book) (q : Request) (one other : Breach) → FirstBreach b q t one → FirstBreach b q t other → one ≡ other }
{}
