//! Resources, operations and their sections.

use crate::expressions::Expr;
use crate::statements::Stmt;
use crate::tokens::Shape;
use lisa_words::Name;

/// The word that declares a register. The three mean the same.
#[derive(Clone, Copy, Debug, PartialEq, Eq)]
pub enum RegisterWord {
    Register,
    ProgramCounter,
    ControlRegister,
}

/// The word that declares a memory. The three mean the same.
#[derive(Clone, Copy, Debug, PartialEq, Eq)]
pub enum MemoryWord {
    Memory,
    DataMemory,
    ProgramMemory,
}

/// A resource of the processor.
#[derive(Debug, Drop)]
pub enum Resource {
    /// A register, or a register array where a depth stands.
    Register(RegisterWord, Shape, Name, Option<u64>),
    /// A register that is read as it was when the edge began.
    Clocked(RegisterWord, Shape, Name),
    /// A memory with its depth.
    Memory(MemoryWord, Shape, Name, u64),
    /// An input pin.
    Pin(Shape, Name),
    /// The pipeline with its stages, the first one first.
    Pipeline(Name, Vec<Name>),
    /// The fields of the boundaries of the named pipeline.
    Fields(Name, Vec<(Shape, Name)>),
}

/// Bits of a coding: digits `0`, `1` and `x` as they were written after `0b`, or one digit that stands some number of
/// times.
#[derive(Debug, Drop)]
pub struct Pattern {
    pub digits: Name,
    pub times: Option<u32>,
}

/// An element of a coding, from the most significant bit down.
#[derive(Debug, Drop)]
pub enum CodingItem {
    Bits(Pattern),
    /// A label's field.
    Field(Name, Pattern),
    Child(Name),
}

/// A coding section.
#[derive(Debug, Drop)]
pub enum CodingPart {
    /// `IN.field == group` or `register == group`
    Root(Expr, Name),
    Items(Vec<CodingItem>),
}

/// How a number of an instruction's text is written.
#[derive(Clone, Copy, Debug, PartialEq, Eq)]
pub enum Format {
    /// `#U`
    Decimal,
    /// `#S`
    SignedDecimal,
    /// `#X`
    Hexadecimal,
}

/// What stands in an instruction's text.
#[derive(Debug, Drop)]
pub enum SyntaxPart {
    /// The bytes of a string.
    Literal(Name),
    /// A label's number.
    Number(Name, Format),
    Child(Name),
}

/// An element of an instruction's text. It is joined where `~` stands before it; the first one never is.
#[derive(Debug, Drop)]
pub struct SyntaxItem {
    pub joined: bool,
    pub part: SyntaxPart,
}

/// An item of an activation.
#[derive(Debug, Drop)]
pub enum Act {
    Start(Name),
    /// `if (e) { .. }` or `if (e) { .. } else { .. }`
    Choose(Expr, Vec<Act>, Option<Vec<Act>>),
}

/// A declaration of an operation.
#[derive(Debug, Drop)]
pub enum Declare {
    /// The names of the group, and its alternatives.
    Group(Vec<Name>, Vec<Name>),
    /// Each name, and the operation that it stands for.
    Instance(Vec<(Name, Name)>),
    Label(Vec<Name>),
    Reference(Vec<Name>),
}

/// A section of an operation. A SEMANTICS section leaves nothing.
#[derive(Debug, Drop)]
pub enum Section {
    Declare(Vec<Declare>),
    Coding(CodingPart),
    Syntax(Vec<SyntaxItem>),
    Behavior(Vec<Stmt>),
    Expression(Expr),
    Activation(Vec<Act>),
}

/// An operation: its pipeline and stage, where it has one, and its sections in source order.
#[derive(Debug, Drop)]
pub struct Operation {
    pub name: Name,
    /// An alias is a second text for instructions that other operations code.
    pub alias: bool,
    pub stage: Option<(Name, Name)>,
    pub sections: Vec<Section>,
}

/// A processor description.
#[derive(Debug, Drop)]
pub struct Description {
    pub resources: Vec<Resource>,
    pub operations: Vec<Operation>,
}
