//! What operators make of typed words.

ghost use Rattle.std.specs.Prelude.{◌≡◌, ◌≤◌, Option, max};
ghost use Rattle.description_types.specs.Shapes.{joined_kind};
ghost use Rattle.typed_values.specs.Words.{typed, typed_word, fitted};
ghost use Rattle.typed_values.specs.Operators.{both, made_by, is_same, is_less, two_value, operand, chosen};

use crate::values::Value;
use lisa_tree::Operator;
use lisa_words::{Kind, Word, add, and, less, mul, or, shl, shr, sub, xor};

// What is made of two words is signed only where both are.
fn joined_kind(left: Kind, right: Kind) -> Kind
    ensures { result ≡ joined_kind left right }
{
    match (left, right) {
        (Kind::Signed, Kind::Signed) => Kind::Signed,
        _ => Kind::Unsigned,
    }
}

// An operation on two words of one width.
#[derive(Clone, Copy)]
enum Arithmetic {
    Add,
    Sub,
    Mul,
    And,
    Or,
    Xor,
}

// Both words at the greater width, and their kind.
#[derive(Clone, Copy)]
struct Pair {
    kind: Kind,
    left: Word,
    right: Word,
}

fn at_one_width(left: Value, right: Value) -> Pair
    ensures kind { result.kind ≡ joined_kind left.kind right.kind }
    ensures left { result.left.bits ≡ fitted (typed_word left) (max left.word.width right.word.width) }
    ensures left_width { result.left.width ≡ max left.word.width right.word.width }
    ensures right { result.right.bits ≡ fitted (typed_word right) (max left.word.width right.word.width) }
    ensures right_width { result.right.width ≡ max left.word.width right.word.width }
{
    let width = left.word.width.max(right.word.width);
    Pair {
        kind: joined_kind(left.kind, right.kind),
        left: left.fitted(width),
        right: right.fitted(width),
    }
}

fn is_same(left: Value, right: Value) -> bool
    ensures { result ≡ is_same (typed_word left) (typed_word right) }
{
    let both = at_one_width(left, right);
    both.left.bits == both.right.bits
}

fn is_less(left: Value, right: Value) -> bool
    ensures { result ≡ is_less (typed_word left) (typed_word right) }
{
    let both = at_one_width(left, right);
    less(both.left, both.right, both.kind)
}

// What is made of two words, by an operation on words of one width.
fn made(left: Value, right: Value, operator: Arithmetic) -> Value
    ensures { typed_word result ≡ both (made_by operator) (typed_word left) (typed_word right) }
{
    let both = at_one_width(left, right);
    let word = match operator {
        Arithmetic::Add => add(both.left, both.right),
        Arithmetic::Sub => sub(both.left, both.right),
        Arithmetic::Mul => mul(both.left, both.right),
        Arithmetic::And => and(both.left, both.right),
        Arithmetic::Or => or(both.left, both.right),
        Arithmetic::Xor => xor(both.left, both.right),
    };
    Value {
        kind: both.kind,
        word,
    }
}

// A left operand, shifted by the bits of the right one.
fn shifted(left: Value, word: Word) -> Value
    requires { word.width ≡ left.word.width }
    ensures { typed_word result ≡ typed left.kind left.word.width word.bits }
{
    Value {
        kind: left.kind,
        word,
    }
}

/// What an operator makes of two words.
pub fn two(operator: Operator, left: Value, right: Value) -> Value
    ensures { typed_word result ≡ two_value operator (typed_word left) (typed_word right) }
{
    match operator {
        Operator::Add => made(left, right, Arithmetic::Add),
        Operator::Sub => made(left, right, Arithmetic::Sub),
        Operator::Mul => made(left, right, Arithmetic::Mul),
        Operator::And => made(left, right, Arithmetic::And),
        Operator::Or => made(left, right, Arithmetic::Or),
        Operator::Xor => made(left, right, Arithmetic::Xor),
        Operator::Left => shifted(left, shl(left.word, right.word.bits)),
        Operator::Right => shifted(left, shr(left.word, left.kind, right.word.bits)),
        Operator::Equal => Value::truth(is_same(left, right)),
        Operator::Unequal => Value::truth(!is_same(left, right)),
        Operator::Less => Value::truth(is_less(left, right)),
        Operator::LessEqual => Value::truth(!is_less(right, left)),
        Operator::Greater => Value::truth(is_less(right, left)),
        Operator::GreaterEqual => Value::truth(!is_less(left, right)),
        Operator::BothTrue => Value::truth(!left.is_zero() && !right.is_zero()),
        Operator::OneTrue => Value::truth(!left.is_zero() || !right.is_zero()),
    }
}

/// An operand beside another one: a literal takes the kind of the other where that is none. The options are the numbers of the operands
/// that are literals.
pub(crate) fn operand(
    literal: Option<u64>,
    other_literal: Option<u64>,
    own: Value,
    other: Value,
) -> Value
    ensures { typed_word result ≡ operand literal other_literal (typed_word own) (typed_word other) }
{
    match (literal, other_literal) {
        (Some(value), None) => Value::number(other.kind, value),
        _ => own,
    }
}

/// One of two words, widened as beside the other.
pub fn chosen(test: bool, left: Value, right: Value) -> Value
    ensures { typed_word result ≡ chosen test (typed_word left) (typed_word right) }
{
    let both = at_one_width(left, right);
    Value {
        kind: both.kind,
        word: if test { both.left } else { both.right },
    }
}
