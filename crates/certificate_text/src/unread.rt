//! What a certificate is read from.
use case_text::CaseLine;

/// The lines that aren't read yet.
#[derive(Clone, Copy)]
pub enum Lines<'a> {
    /// Of a text, from the line of this number on. A line feed ends each.
    Text { text: &'a [u8], number: u32 },
    /// Of a case, with their numbers, and the number of a line that is missing after them.
    Numbered { lines: &'a [CaseLine<'a>], end: u32 },
}
