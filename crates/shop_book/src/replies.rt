//! What a book replies.
use fare_law::Mem;
use lowfare::Outcome;

/// A status, as the program's, with the text that is due; or memory was wanting.
pub type Replied = Result<Outcome, Mem>;
