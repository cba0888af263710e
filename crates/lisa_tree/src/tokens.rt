//! The tokens of a description.

use lisa_words::{Kind, Name};

/// The type of a word: how its bits are read, and how many there are. `uint8` is unsigned and 8 bits wide. A type that
/// a description names may have a width from 1 to 99; only widths from 1 to 64 pass the checks.
#[derive(Clone, Copy, Debug, PartialEq, Eq)]
pub struct Shape {
    pub kind: Kind,
    pub width: u32,
}

/// The base in which a number was written. The canonical text keeps it.
#[derive(Clone, Copy, Debug, PartialEq, Eq)]
pub enum Base {
    Decimal,
    Hexadecimal,
    Binary,
}

/// A sign of a description, in the order in which the language's page lists them.
#[derive(Clone, Copy, Debug, PartialEq, Eq)]
pub enum Sign {
    /// `<<`
    ShiftLeft,
    /// `>>`
    ShiftRight,
    /// `<=`
    LessEqual,
    /// `>=`
    GreaterEqual,
    /// `==`
    EqualEqual,
    /// `!=`
    NotEqual,
    /// `&&`
    AndAnd,
    /// `||`
    OrOr,
    /// `#U`
    DecimalFormat,
    /// `#S`
    SignedFormat,
    /// `#X`
    HexadecimalFormat,
    /// `{`
    OpenBrace,
    /// `}`
    CloseBrace,
    /// `(`
    OpenRound,
    /// `)`
    CloseRound,
    /// `[`
    OpenSquare,
    /// `]`
    CloseSquare,
    /// `;`
    Semicolon,
    /// `,`
    Comma,
    /// `.`
    Dot,
    /// `=`
    Equal,
    /// `<`
    Less,
    /// `>`
    Greater,
    /// `+`
    Plus,
    /// `-`
    Minus,
    /// `*`
    Star,
    /// `&`
    And,
    /// `|`
    Or,
    /// `^`
    Caret,
    /// `~`
    Tilde,
    /// `!`
    Exclamation,
    /// `?`
    Question,
    /// `:`
    Colon,
    /// `/`
    Slash,
}

/// A reserved word of a description, spelled as the variant's documentation shows. No name is spelled like one.
#[derive(Clone, Copy, Debug, PartialEq, Eq)]
pub enum Keyword {
    /// `RESOURCE`
    Resource,
    /// `REGISTER`
    Register,
    /// `PROGRAM_COUNTER`
    ProgramCounter,
    /// `CONTROL_REGISTER`
    ControlRegister,
    /// `CLOCKED`
    Clocked,
    /// `MEMORY`
    Memory,
    /// `DATA_MEMORY`
    DataMemory,
    /// `PROGRAM_MEMORY`
    ProgramMemory,
    /// `PIN`
    Pin,
    /// `PIPELINE`
    Pipeline,
    /// `PIPELINE_REGISTER`
    PipelineRegister,
    /// `IN`
    In,
    /// `OUT`
    Out,
    /// `OPERATION`
    Operation,
    /// `ALIAS`
    Alias,
    /// `DECLARE`
    Declare,
    /// `GROUP`
    Group,
    /// `INSTANCE`
    Instance,
    /// `LABEL`
    Label,
    /// `REFERENCE`
    Reference,
    /// `CODING`
    Coding,
    /// `SYNTAX`
    Syntax,
    /// `BEHAVIOR`
    Behavior,
    /// `EXPRESSION`
    Expression,
    /// `ACTIVATION`
    Activation,
    /// `SEMANTICS`
    Semantics,
    /// `if`
    If,
    /// `else`
    Else,
    /// `while`
    While,
    /// `for`
    For,
    /// `decoded`
    Decoded,
}

/// What a token is.
#[derive(Debug, PartialEq, Eq, Drop)]
pub enum TokenPart {
    /// A name that is no reserved word and no type word, of at most 64 bytes.
    Named(Name),
    /// A reserved word.
    Reserved(Keyword),
    /// A type word: `uint` or `int` and a width from 1 to 99 without a leading zero.
    TypeWord(Shape),
    /// A decimal or hexadecimal number.
    Number(u64, Base),
    /// The digits after `0b`: one to 64 of `0`, `1` and `x`.
    Pattern(Name),
    /// The bytes between the quotes of a string.
    Text(Name),
    /// A sign.
    Sign(Sign),
}

/// A token, and the place of its first byte.
#[derive(Debug, Drop)]
pub struct Token {
    pub at: u32,
    pub part: TokenPart,
}
