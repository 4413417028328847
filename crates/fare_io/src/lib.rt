//! Sources and sinks of bytes that count their faults, and the two calls that read a whole input and
//! write a whole text. The layer above learns from them which bytes came and which were written, and
//! that each fault has its cause: the count of the object that it came from rose in that call.
#![tactic(auto)]

mod failing;
mod memory;
mod reading;
mod sink;
mod source;
mod standard;
mod writing;

pub use failing::{FailSink, FailSource};
pub use memory::{MemSink, MemSource};
pub use reading::{InFault, read_all};
pub use sink::Sink;
pub use source::{Failed, Source};
pub use standard::{StdSink, StdSource};
pub use writing::{OutFault, write_all};
