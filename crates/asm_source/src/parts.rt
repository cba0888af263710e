// The lines of a source, as values.
use lisa_words::Name;

/// A line of a source.
#[derive(Debug, PartialEq, Eq, Drop)]
pub struct SourceLine {
    /// Its number, from 1.
    pub line: u32,
    /// The labels at its front, in order.
    pub labels: Vec<Name>,
    /// What stands behind them.
    pub part: Part,
}

/// What stands behind the labels of a line.
#[derive(Debug, PartialEq, Eq, Drop)]
pub enum Part {
    /// Nothing.
    Nothing,
    /// `.section NAME`
    Section(Name),
    /// `.global NAME`
    Global(Name),
    /// `.equ NAME N`
    Equ(Name, i128),
    /// `.word V, V ..`
    Cells(Vec<CellValue>),
    /// `.space N`
    Space(u32),
    /// An instruction, as runs of word characters, single other characters and operands.
    Instruction(Vec<LineToken>),
}

/// A value of a `.word`.
#[derive(Debug, PartialEq, Eq, Drop)]
pub enum CellValue {
    /// A number without `@`.
    Number(i128),
    /// An `@` operand.
    Sum(Sum),
}

/// A piece of an instruction's text.
#[derive(Debug, PartialEq, Eq, Drop)]
pub enum LineToken {
    /// A run of word characters.
    Run(Name),
    /// Another character.
    Sign(u8),
    /// A run that ends in `@`, without it, and the operand behind it.
    Operand(Name, Sum),
}

/// A constant and terms.
#[derive(Clone, Debug, PartialEq, Eq, Drop)]
pub struct Sum {
    /// The sum of the numbers.
    pub constant: i128,
    /// The names and `$`, in order.
    pub terms: Vec<Term>,
}

/// A term that isn't a number.
#[derive(Clone, Debug, PartialEq, Eq, Drop)]
pub struct Term {
    /// It is taken away.
    pub minus: bool,
    /// The name, or none for `$`.
    pub name: Option<Name>,
}
