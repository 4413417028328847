/// What is wrong with a text.
#[derive(Clone, Copy, PartialEq, Eq, Debug)]
pub enum TimeFault {
    /// The text is no date from 2000-01-01 to 2099-12-31.
    BadDate = 1,
    /// The text is no time from 00:00 to 23:59.
    BadTime = 2,
    /// The text is no offset of at most 14 hours.
    BadOffset = 3,
}
