//! Requests as JSON lines: a request's text is read exactly, with the first fault named, and a
//! request is written as text that is read again as itself. What is read is within the limits of a
//! request; whether its places are known is for the layer that has a timetable.
#![tactic(auto)]

mod asked;
mod fault;
mod limits;
mod reading;
mod text;

pub use asked::{Asked, AskedSlice, Terms};
pub use fault::RequestFault;
pub use reading::read_request;
pub use text::request_text;
