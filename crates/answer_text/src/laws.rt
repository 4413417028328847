//! A law for callers' proofs. It has no code.
ghost use Rattle.std.specs.Prelude.{◌≡◌, ℕ, List};
ghost use Rattle.fare_law.specs.declared.requests.Request.{Request};
ghost use Rattle.fare_law.specs.declared.tickets.Ticket.{Ticket};
ghost use Rattle.fare_law.specs.Book.{Book};
ghost use Rattle.fare_law.specs.Lawful.{Lawful};
ghost use Rattle.fare_law.specs.Lists.{Each};
ghost use Rattle.answer_text.specs.Answer.{AnswerText};

use market_time::one_date_text;

/// Lawful tickets have one answer's text only.
pub fn one_answer_text()
    ensures { (b : Book) (q : Request) (tickets : List Ticket) (one other : List ℕ)
        → Each (λ t. Lawful t b q) tickets → AnswerText b q tickets one
        → AnswerText b q tickets other → one ≡ other }
{
    one_date_text();
}
