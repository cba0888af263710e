//! What names are declared as.

/// What a declared name is. The number is that of the choice among the operations that a group or an instance lists.
#[derive(Clone, Copy, Debug, PartialEq, Eq)]
pub enum What {
    Group(usize),
    Instance(usize),
    Label,
    Reference,
}

/// What a name stands for in an operation, locals aside.
#[derive(Clone, Copy, Debug, PartialEq, Eq)]
pub enum Meaning {
    Nothing,
    /// A resource, by its number.
    Resource(usize),
    /// A name that the operation declares, by its number among all declared names.
    Declared(usize),
}
