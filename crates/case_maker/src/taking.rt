//! The law that a made case is never refused.
ghost use Rattle.case_maker.specs.Taken.{AreTaken};

use name_text::names_read_again;

/// A made case of at most a hundred hubs is never refused as a case of a search: its lines and rows are of their forms,
/// its tables have no fault, its filing is read and taken, and its request is one.
pub fn made_cases_are_taken()
    ensures { AreTaken }
{
    names_read_again();
}
