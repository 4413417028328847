//! Laws for callers' proofs. They have no code.
ghost use Rattle.std.specs.Prelude.{◌≡◌, [], List};
ghost use Rattle.fare_law.specs.declared.requests.Request.{Request};
ghost use Rattle.fare_law.specs.declared.tickets.Ticket.{Ticket};
ghost use Rattle.fare_law.specs.Book.{Book};
ghost use Rattle.fare_law.specs.Lawful.{Lawful};
ghost use Rattle.fare_law.specs.Lists.{OnFirst};
ghost use Rattle.ticket_whole.specs.Breaches.{FirstBreach};
ghost use Rattle.ticket_whole.specs.declared.breach.Breach.{Breach};
ghost use Rattle.fare_verdict.specs.Findings.{AreFindings};
ghost use Rattle.fare_verdict.specs.declared.finding.Finding.{Finding};

use ticket_whole::{first_day_by_category, lawful_where_met, stay_by_category};

/// A ticket has one list of findings.
pub fn one_list_of_findings()
    ensures { (t : Ticket) (b : Book) (q : Request) (findings others : List Finding) → AreFindings t b q findings → AreFindings t b q others → findings ≡ others }
{}

/// A lawful ticket has no findings. That one without findings is lawful is told by `verdict`.
pub fn lawful_without_findings()
    ensures { (t : Ticket) (b : Book) (q : Request) → Lawful t b q → AreFindings t b q [] }
{
    lawful_where_met();
    first_day_by_category();
    stay_by_category();
}

/// The first finding has the rule and the component of the first breach.
pub fn first_finding_is_first_breach()
    ensures { (t : Ticket) (b : Book) (q : Request) (findings : List Finding) (breach : Breach) → AreFindings t b q findings → FirstBreach b q t breach
        → OnFirst (λ f. (f.rule ≡ breach.rule) × (f.component ≡ breach.component)) findings }
{
    first_day_by_category();
    stay_by_category();
}
