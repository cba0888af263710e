// The tokens of a module's text.
use lisa_words::{Name, Word};

/// A sign.
#[derive(Clone, Copy, Debug, PartialEq, Eq)]
pub enum VSign {
    /// `<<`
    ShiftLeft,
    /// `>>`
    ShiftRight,
    /// `<=`, a comparison or a nonblocking assignment.
    LessEqual,
    /// `>=`
    GreaterEqual,
    /// `==`
    EqualEqual,
    /// `!=`
    NotEqual,
    /// `&&`
    AndAnd,
    /// `||`
    OrOr,
    /// `^~` or `~^`, which no rule of the grammar has.
    Xnor,
    /// `{`
    OpenBrace,
    /// `}`
    CloseBrace,
    /// `(`
    OpenRound,
    /// `)`
    CloseRound,
    /// `[`
    OpenSquare,
    /// `]`
    CloseSquare,
    /// `;`
    Semicolon,
    /// `,`
    Comma,
    /// `=`
    Equal,
    /// `<`
    Less,
    /// `>`
    Greater,
    /// `+`
    Plus,
    /// `-`
    Minus,
    /// `*`
    Star,
    /// `&`
    And,
    /// `|`
    Or,
    /// `^`
    Caret,
    /// `~`
    Tilde,
    /// `!`
    Exclamation,
    /// `?`
    Question,
    /// `:`
    Colon,
    /// `@`
    At,
}

/// A reserved word, spelled as the variant's documentation shows. A name that isn't escaped is spelled like none of them.
#[derive(Clone, Copy, Debug, PartialEq, Eq)]
pub enum VKeyword {
    /// `module`
    Module,
    /// `input`
    Input,
    /// `wire`
    Wire,
    /// `endmodule`
    EndModule,
    /// `reg`
    Reg,
    /// `initial`
    Initial,
    /// `begin`
    Begin,
    /// `end`
    End,
    /// `always`
    Always,
    /// `posedge`
    PosEdge,
    /// `if`
    If,
    /// `else`
    Else,
}

/// What a token is.
#[derive(Debug, Drop)]
pub enum VTokenPart {
    /// A name. Of an escaped one, what stands between the backslash and the white space.
    Named(Name),
    Reserved(VKeyword),
    /// A number with its size, as `8'd200`.
    Sized(Word),
    /// Decimal digits alone: the number, which is below 2^31, and how many digits there are.
    Plain(u32, u32),
    Sign(VSign),
}

/// A token, and the place of its first byte.
#[derive(Debug, Drop)]
pub struct VToken {
    pub at: u32,
    pub part: VTokenPart,
}
