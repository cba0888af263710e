// How texts and lines begin.

/// How a text of a form, or a line, begins.
#[derive(Clone, Copy, Debug, PartialEq, Eq)]
pub enum Start<'a> {
    /// With this character.
    Sign(u8),
    /// With this run.
    Word(&'a [u8]),
    /// With a run that is this prefix and a number, or an operand.
    Prefix(&'a [u8]),
}
