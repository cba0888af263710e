//! Operands, and what is made of them.

ghost use Rattle.std.specs.Prelude.{◌≡◌, Option};
ghost use Rattle.lisa_tree.specs.Expressions.{expr_tree};
ghost use Rattle.description_places.specs.Literals.{literal};
ghost use Rattle.typed_values.specs.Words.{typed_word};
ghost use Rattle.typed_values.specs.Operators.{operand, chosen};
ghost use Rattle.typed_values.specs.Expressions.{made_of, complement};

use lisa_tree::{Expr, Operator};
use lisa_words::not;
use typed_values::{Value, chosen, two};

/// A value, and its number where it is a literal.
#[derive(Clone, Copy)]
pub(crate) struct Operand {
    pub literal: Option<u64>,
    pub value: Value,
}

/// The number that a literal is.
pub(crate) fn literal(expression: &Expr) -> Option<u64>
    ensures { result ≡ literal (expr_tree expression.now) }
{
    match expression {
        Expr::Number(value, _) => Some(*value),
        _ => None,
    }
}

// An operand beside another one: a literal takes the kind of the other where that is none.
fn beside(own: Operand, other: Operand) -> Value
    ensures { typed_word result ≡ operand own.literal other.literal (typed_word own.value) (typed_word other.value) }
{
    match (own.literal, other.literal) {
        (Some(number), None) => Value::number(other.value.kind, number),
        _ => own.value,
    }
}

/// What an operator makes of two operands, which a literal is by itself beside a shift alone.
pub(crate) fn made_of(operator: Operator, left: Operand, right: Operand) -> Value
    ensures { typed_word result ≡ made_of operator left.literal right.literal (typed_word left.value) (typed_word right.value) }
{
    match operator {
        Operator::Left | Operator::Right => two(operator, left.value, right.value),
        _ => two(operator, beside(left, right), beside(right, left)),
    }
}

/// One of two operands, widened as beside the other.
pub(crate) fn chosen_of(test: bool, left: Operand, right: Operand) -> Value
    ensures { typed_word result ≡ chosen test (operand left.literal right.literal (typed_word left.value) (typed_word right.value)) (operand right.literal left.literal (typed_word right.value) (typed_word left.value)) }
{
    chosen(test, beside(left, right), beside(right, left))
}

/// Each bit turned round.
pub(crate) fn complement(value: Value) -> Value
    ensures { typed_word result ≡ complement (typed_word value) }
{
    Value {
        kind: value.kind,
        word: not(value.word),
    }
}
