// What a module says of its names.
use lisa_words::Name;

/// What a name is declared as, with its width, and an array's depth.
#[derive(Clone, Copy, Debug)]
pub enum Kind {
    Clock,
    Input(u32),
    Register(u32),
    Store(u32, u32),
    Net(u32),
}

#[derive(Clone, Copy, Debug)]
pub struct Declaration<'a> {
    pub name: &'a Name,
    pub kind: Kind,
}

/// How a name is used.
#[derive(Clone, Copy, Debug)]
pub enum Way {
    /// Alone in an expression.
    Read,
    /// Its bits, from a high one down to a low one.
    Select(u32, u32),
    /// A cell, read or assigned.
    Index,
    /// Assigned without an index.
    Assign,
    /// Given a first value.
    Start,
    /// Behind `posedge`.
    Edge,
}

/// A use of a name, and how many declarations stand before it.
#[derive(Clone, Copy, Debug)]
pub struct NameUse<'a> {
    pub before: usize,
    pub name: &'a Name,
    pub way: Way,
}

/// A `reg` of one word that is declared, or a name that is given a first value.
#[derive(Clone, Copy, Debug)]
pub enum Event<'a> {
    Declares(&'a Name),
    Gives(&'a Name),
}
