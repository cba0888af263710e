// Lengths of expressions. They may be of any size, and are told as 32 bits hold them.
ghost use Rattle.std.specs.Prelude.{ℕ, ◌≡◌, ◌+◌, ◌-◌, ◌*◌, max, suc};
ghost use Rattle.verilog_text.specs.Trees.{VTree, One};
ghost use Rattle.verilog_text.specs.Values.{Widths, v_width, two_width as width_of_two};
ghost use Rattle.verilog_size_checks.specs.Sought.{capped};

use lisa_words::Operator;
use verilog_text::VOne;

/// The length of two parts together.
pub fn together(a: u32, b: u32) -> u32
    ensures { (x y : ℕ) → a ≡ capped x → b ≡ capped y → result ≡ capped (x + y) }
{
    a.saturating_add(b)
}

/// The length of so many parts.
pub fn repeated(times: u32, a: u32) -> u32
    ensures { (x : ℕ) → a ≡ capped x → result ≡ capped (times * x) }
{
    times.saturating_mul(a)
}

/// The larger length.
pub fn larger(a: u32, b: u32) -> u32
    ensures { (x y : ℕ) → a ≡ capped x → b ≡ capped y → result ≡ capped (max x y) }
{
    a.max(b)
}

/// The length of the bits from a high one down to a low one.
pub fn selected(high: u32, low: u32) -> u32
    ensures { result ≡ capped (suc (high - low)) }
{
    high.saturating_sub(low).saturating_add(1)
}

/// The length of what an operator gives, of one operand.
pub fn one_width(one: VOne, a: u32) -> u32
    ensures { (widths : Widths) (e : VTree) → a ≡ capped (v_width widths e) → result ≡ capped (v_width widths (One one e)) }
{
    match one {
        VOne::Complement => a,
        VOne::Negate => 1,
    }
}

// The length of what an operator gives, of two.
fn exact_two(operator: Operator, a: u32, b: u32) -> u32
    ensures { result ≡ width_of_two operator a b }
{
    match operator {
        Operator::Equal
        | Operator::Unequal
        | Operator::Less
        | Operator::LessEqual
        | Operator::Greater
        | Operator::GreaterEqual
        | Operator::BothTrue
        | Operator::OneTrue => 1,
        Operator::Left | Operator::Right => a,
        Operator::Add
        | Operator::Sub
        | Operator::Mul
        | Operator::And
        | Operator::Or
        | Operator::Xor => a.max(b),
    }
}

/// The length of what an operator gives, of two operands of any length.
pub fn two_width(operator: Operator, a: u32, b: u32) -> u32
    ensures { (x y : ℕ) → a ≡ capped x → b ≡ capped y → result ≡ capped (width_of_two operator x y) }
{
    exact_two(operator, a, b)
}
