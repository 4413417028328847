//! The laws of codes and of their order.
ghost use Rattle.std.specs.Cmp.Lexicographic.{slice_cmp};
ghost use Rattle.std.specs.Ordering.{MatchOrdering, nat_cmp};
ghost use Rattle.std.specs.Prelude.{◌≡◌, ◌⊎◌, ◌↔◌, ℕ, ◌+◌, ◌≤◌, List, ◌++◌, length};
ghost use Rattle.fare_law.specs.declared.moves.Move.{Move};
ghost use Rattle.fare_law.specs.Lists.{Each, IsPrefix, Less};
ghost use Rattle.fare_law.specs.Codes.{move_code, run_code};
ghost use Rattle.fare_law.specs.Best.{Before};
ghost use Rattle.fare_law.specs.declared.requests.Request.{Request};
ghost use Rattle.fare_law.specs.declared.tickets.Ticket.{Ticket};
ghost use Rattle.fare_law.specs.Book.{Book};
ghost use Rattle.fare_law.specs.Lawful.{Lawful};
ghost use Rattle.fare_law.specs.Moves.{moves_of};
ghost use Rattle.ticket_order.specs.Coding.{Apart, Coded};
ghost use Rattle.ticket_order.specs.Tickets.{TicketOfMoves};

use fare_law::MOST_COMPONENTS;

/// A code tells its moves, where carriers and bases have their characters: the codes of two moves
/// are equal or neither is the front of the other, and a code that begins with the code of moves
/// is that of moves that begin with them.
pub fn codes_tell()
    ensures apart { (m n : Move) → Coded m → Coded n → (move_code m ≡ move_code n) ⊎ Apart (move_code m) (move_code n) }
    ensures parts { (m n : Move) (us vs : List ℕ) → Coded m → Coded n → move_code m ++ us ≡ move_code n ++ vs → (m ≡ n) × (us ≡ vs) }
    ensures front { (xs ys : List Move) (more : List ℕ) → Each Coded xs → Each Coded ys → run_code ys ≡ run_code xs ++ more → IsPrefix xs ys }
    ensures same { (xs ys : List Move) → Each Coded xs → Each Coded ys → run_code xs ≡ run_code ys → xs ≡ ys }
    ensures joined { (xs ys : List Move) → run_code (xs ++ ys) ≡ run_code xs ++ run_code ys }
{}

/// The order of words, and the order by price and word, are strict and total, and the comparison of lists
/// of numbers tells the order of words. The order of joined
/// words is that of the second parts where the first parts are one, and that of the first parts
/// where neither of these is the front of the other.
pub fn order_laws()
    ensures less_never { (w : List ℕ) → Less w w → ⊥ }
    ensures less_trans { (u v w : List ℕ) → Less u v → Less v w → Less u w }
    ensures less_total { (v w : List ℕ) → Less v w ⊎ ((v ≡ w) ⊎ Less w v) }
    ensures less_told { (v w : List ℕ) → MatchOrdering (slice_cmp nat_cmp v w) (Less v w) (v ≡ w) (Less w v) }
    ensures less_cut { (w v z : List ℕ) → Less w (v ++ z) → Less w v ⊎ IsPrefix v w }
    ensures less_more { (w v z : List ℕ) → Less w v → Less w (v ++ z) }
    ensures less_second { (u v w : List ℕ) → Less v w ↔ Less (u ++ v) (u ++ w) }
    ensures less_first { (v w x y : List ℕ) → Apart v w → Less v w ↔ Less (v ++ x) (w ++ y) }
    ensures before_never { (p : ℕ) (w : List ℕ) → Before p w p w → ⊥ }
    ensures before_trans { (p q r : ℕ) (u v w : List ℕ) → Before p u q v → Before q v r w → Before p u r w }
    ensures before_total { (p q : ℕ) (v w : List ℕ) → Before p v q w ⊎ (((p ≡ q) × (v ≡ w)) ⊎ Before q w p v) }
    ensures before_more { (p l m : ℕ) (w v z : List ℕ) → Before p w l v → l ≤ m → Before p w m (v ++ z) }
    ensures before_second { (price p q : ℕ) (u v w : List ℕ) → Before p v q w ↔ Before (price + p) (u ++ v) (price + q) (u ++ w) }
{}

/// A lawful ticket of at most `MOST_COMPONENTS` components is the ticket of its moves: in it each fare that closes a
/// unit is filed from its component's end to its beginning, and each other one from the beginning to
/// the end.
pub fn lawful_tickets()
    ensures { (b : Book) (q : Request) (t : Ticket) → Lawful t b q → length t.components ≤ MOST_COMPONENTS → TicketOfMoves b.timetable.flights (moves_of t) t }
{}
