//! What is noted of names.

/// How often a name stands somewhere. A name that doesn't has no entry.
#[derive(Clone, Copy, Debug, PartialEq, Eq)]
pub enum Times {
    Once,
    More,
}

/// What is amiss with a declared name of an operation with a coding that isn't the root's.
#[derive(Clone, Copy, Debug, PartialEq, Eq)]
pub struct Writing {
    /// It is to be written, and doesn't stand once in the coding and once in the syntax.
    pub missing: bool,
    /// It is no child of the coding, so it can't be one of the syntax.
    pub extra: bool,
}
