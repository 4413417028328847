//! What words give, each option by its text.

/// The texts that the words give to the command's name and to each option. The flag's text is `true` where it is given.
#[derive(Clone, Copy)]
pub(crate) struct Given<'a> {
    pub command: Option<&'a str>,
    pub best: Option<&'a str>,
    pub budget: Option<&'a str>,
    pub at: Option<&'a str>,
    pub seed: Option<&'a str>,
    pub size: Option<&'a str>,
    pub outs: Option<&'a str>,
    pub backs: Option<&'a str>,
    pub summary: Option<&'a str>,
}
