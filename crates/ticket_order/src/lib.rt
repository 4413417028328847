//! The moves and the code of a ticket, the order by price and code, and the ticket of moves: what a
//! search chooses step by step is read off a ticket, compared, and made into the ticket again.
//! The laws of codes and of their order stand as functions without parameters.
#![tactic(auto)]

mod decoding;
mod keys;
mod laws;
mod numbering;
mod numbers;
mod roles;
mod tickets;

pub use decoding::moves_of_code;
pub use keys::cmp_key;
pub use laws::{codes_tell, lawful_tickets, order_laws};
pub use numbering::begins;
pub use numbers::{code, move_code};
pub use roles::moves_of;
pub use tickets::ticket_of;
