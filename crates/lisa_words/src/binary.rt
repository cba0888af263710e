//! Operators of two operands and their levels.

ghost use Rattle.std.specs.Prelude.{◌≡◌, ◌≤◌};
ghost use Rattle.lisa_words.specs.Operators.{level_of};

/// An operator with two operands: the same ones in a behaviour and in Verilog.
#[derive(Clone, Copy, Debug, PartialEq, Eq)]
pub enum Operator {
    /// `|`
    Or,
    /// `^`
    Xor,
    /// `&`
    And,
    /// `&&`
    BothTrue,
    /// `||`
    OneTrue,
    /// `==`
    Equal,
    /// `!=`
    Unequal,
    /// `<`
    Less,
    /// `<=`
    LessEqual,
    /// `>`
    Greater,
    /// `>=`
    GreaterEqual,
    /// `<<`
    Left,
    /// `>>`
    Right,
    /// `+`
    Add,
    /// `-`
    Sub,
    /// `*`
    Mul,
}

/// The level of an operator, from 1, the loosest, to 10, the tightest.
pub fn level(operator: Operator) -> u8
    ensures value { result ≡ level_of operator }
    ensures some { 1 ≤ result }
    ensures few { result ≤ 10 }
{
    match operator {
        Operator::OneTrue => 1,
        Operator::BothTrue => 2,
        Operator::Or => 3,
        Operator::Xor => 4,
        Operator::And => 5,
        Operator::Equal | Operator::Unequal => 6,
        Operator::Less | Operator::LessEqual | Operator::Greater | Operator::GreaterEqual => 7,
        Operator::Left | Operator::Right => 8,
        Operator::Add | Operator::Sub => 9,
        Operator::Mul => 10,
    }
}
