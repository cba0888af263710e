//! What is found out about operations, choices and declared names.

use lisa_tree::Shape;

/// The type of what an expression, a child or a label stands for.
#[derive(Clone, Copy, Debug, PartialEq, Eq)]
pub enum TypeOf {
    /// There is no expression or field, or the alternatives differ, or the declarations that a reference may mean.
    NoType,
    Typed(Shape),
    /// It rests on a use that is itself refused.
    Refused,
}

/// Whether what an expression, a child or a label stands for may be assigned.
#[derive(Clone, Copy, Debug, PartialEq, Eq)]
pub enum Assignable {
    Yes,
    No,
    /// The declarations that a reference may mean differ.
    Mixed,
    /// It rests on a use that is itself refused.
    Refused,
}

/// One of the traits.
#[derive(Clone, Copy, Debug, PartialEq, Eq)]
pub enum Trait {
    Label,
    Child,
    Staged,
    Rooted,
    Uncoded,
    Misplaced,
    Instructions,
    ListedStaged,
    ListedRooted,
}

/// How a declared name may be used. Each holds of a reference where it holds of a declaration that it may mean, and of a choice where it
/// would hold of a name that stands in no coding.
#[derive(Clone, Copy, Debug, PartialEq, Eq)]
pub struct Traits {
    /// It is a label.
    pub label: bool,
    /// It is a group or an instance.
    pub child: bool,
    /// An alternative has a stage of its own.
    pub staged: bool,
    /// An alternative has the root.
    pub rooted: bool,
    /// There are several alternatives, and the name isn't in its own operation's coding.
    pub uncoded: bool,
    /// An alternative, or an alias, has a coding that isn't the root's, and the name isn't in its own operation's coding.
    pub misplaced: bool,
    /// It is the group of the root's coding.
    pub instructions: bool,
    /// An alternative, or an alias, has a stage of its own.
    pub listed_staged: bool,
    /// An alternative, or an alias, has the root.
    pub listed_rooted: bool,
}

/// How a declared name stands in the coding and the syntax of its operation.
#[derive(Clone, Copy, Debug, PartialEq, Eq)]
pub struct CodedName {
    /// The type of a label of this name.
    pub label: TypeOf,
    /// The name stands in the coding, as a child or as the root's group.
    pub coded: bool,
    /// It is that of the root's group.
    pub instructions: bool,
}
