//! Every breach of a ticket, for an auditor: the rule with the component, its unit and the category, each
//! once and in order. `verdict` gives them, and none exactly where the ticket is lawful; `read_ticket`
//! reads a ticket from the lines of a case, and `push_findings_text` writes the findings.
#![tactic(auto)]

mod asking;
mod failing;
mod faults;
mod finding;
mod forms;
mod judging;
mod laws;
mod lines;
mod printing;
mod stages;
mod tickets;
mod told;

pub use faults::TicketFault;
pub use finding::Finding;
pub use judging::verdict;
pub use laws::{first_finding_is_first_breach, lawful_without_findings, one_list_of_findings};
pub use printing::push_findings_text;
pub use tickets::read_ticket;
