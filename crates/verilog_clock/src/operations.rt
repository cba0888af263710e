// The operators on values at a length.
ghost use Rattle.std.specs.Prelude.{◌≡◌, bit_and, bit_or, bit_xor, not};
ghost use Rattle.lisa_words.specs.declared.words.Kind.TheVariants.{Unsigned};
ghost use Rattle.lisa_words.specs.Words.{word_add, word_sub, word_mul, word_not, word_shl, word_shr};
ghost use Rattle.verilog_text.specs.Values.{is_true as true_of, truth as truth_of, operate as operated};

use crate::lengths::Length;
use lisa_words::Operator;

fn truth(test: bool) -> u64
    ensures { result ≡ truth_of test }
{
    u64::from(test)
}

/// Whether a value isn't 0.
pub fn is_true(a: u64) -> bool
    ensures { result ≡ true_of a }
{
    a != 0
}

/// 1 for a value that is 0, and 0 for any other.
pub fn negate(a: u64) -> u64
    ensures { result ≡ truth_of (not (true_of a)) }
{
    truth(!is_true(a))
}

/// Each bit turned round.
pub fn complement(length: Length, a: u64) -> u64
    ensures { result ≡ word_not length.bits a }
{
    !a & length.mask
}

fn add(length: Length, a: u64, b: u64) -> u64
    ensures { result ≡ word_add length.bits a b }
{
    a.wrapping_add(b) & length.mask
}

fn subtract(length: Length, a: u64, b: u64) -> u64
    ensures { result ≡ word_sub length.bits a b }
{
    a.wrapping_sub(b) & length.mask
}

fn multiply(length: Length, a: u64, b: u64) -> u64
    ensures { result ≡ word_mul length.bits a b }
{
    a.wrapping_mul(b) & length.mask
}

// The bits moved up. None is left where the amount is 64 or more.
fn shift_left(length: Length, a: u64, by: u64) -> u64
    ensures { result ≡ word_shl length.bits a by }
{
    if by < 64 { (a << by) & length.mask } else { 0 }
}

// The bits moved down, with zeros from above.
fn shift_right(length: Length, a: u64, by: u64) -> u64
    ensures { result ≡ word_shr Unsigned length.bits a by }
{
    if by < 64 { (a >> by) & length.mask } else { 0 }
}

fn both_true(a: u64, b: u64) -> u64
    ensures { result ≡ operated Operator.BothTrue 1 a b }
{
    if is_true(a) { truth(is_true(b)) } else { 0 }
}

fn one_true(a: u64, b: u64) -> u64
    ensures { result ≡ operated Operator.OneTrue 1 a b }
{
    if is_true(a) { 1 } else { truth(is_true(b)) }
}

/// What an operator gives at a length.
pub fn operate(operator: Operator, length: Length, a: u64, b: u64) -> u64
    ensures { result ≡ operated operator length.bits a b }
{
    match operator {
        Operator::Add => add(length, a, b),
        Operator::Sub => subtract(length, a, b),
        Operator::Mul => multiply(length, a, b),
        Operator::And => a & b,
        Operator::Or => a | b,
        Operator::Xor => a ^ b,
        Operator::Left => shift_left(length, a, b),
        Operator::Right => shift_right(length, a, b),
        Operator::Equal => truth(a == b),
        Operator::Unequal => truth(a != b),
        Operator::Less => truth(a < b),
        Operator::LessEqual => truth(a <= b),
        Operator::Greater => truth(a > b),
        Operator::GreaterEqual => truth(a >= b),
        Operator::BothTrue => both_true(a, b),
        Operator::OneTrue => one_true(a, b),
    }
}
