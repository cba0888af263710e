// Compiled expressions. An operator gets the length of its context, or that of its operands, as the standard has it.
ghost use Rattle.std.specs.Prelude.{◌≡◌, ◌≤◌, ◌<◌, ◌+◌, ◌-◌, ◌*◌, ◌^◌, ℕ, List, IfOk};
ghost use Rattle.verilog_text.specs.Trees.{vexpr_tree, vexpr_trees, Bits as BitsTree};
ghost use Rattle.verilog_text.specs.Values.{v_width, parts_width as width_of_parts, left_length, right_length, v_value, parts_value, repeated, operate as operated};
ghost use Rattle.verilog_text.specs.Clocked.{widths_of, env_of};
ghost use Rattle.verilog_text.specs.Clockable.{IsNarrow, AreNarrow};
ghost use Rattle.verilog_clock.specs.Compiled.{code_value};
ghost use Rattle.verilog_clock.specs.Named.{AreWithin, Means, MeansAssigned};
ghost use Rattle.verilog_clock.specs.Scopes.{module_in};

use crate::code::Code;
use crate::lengths::Length;
use crate::scope::Scope;
use lisa_words::{Name, Operator};
use std::alloc::{AllocError, Global};
use verilog_text::{VExpr, VOne};

/// The own length of an expression.
#[cycle(widths)]
pub fn own_width(scope: &Scope<'_>, e: &VExpr) -> u32
    requires { IsNarrow (widths_of (module_in scope.now)) (vexpr_tree e.now) }
    ensures value { result ≡ v_width (widths_of (module_in scope.now)) (vexpr_tree e.now) }
    ensures small { result ≤ 64 }
{
    match e {
        VExpr::Number(word) => word.width,
        VExpr::Named(name) => scope.width(name),
        VExpr::Bits(_, high, low) => high.saturating_sub(*low) + 1,
        VExpr::Cell(name, _) => scope.cell_width(name),
        VExpr::One(VOne::Complement, a) => own_width(scope, a),
        VExpr::One(VOne::Negate, _) => 1,
        VExpr::Two(operator, a, b) => match operator {
            Operator::Equal
            | Operator::Unequal
            | Operator::Less
            | Operator::LessEqual
            | Operator::Greater
            | Operator::GreaterEqual
            | Operator::BothTrue
            | Operator::OneTrue => 1,
            Operator::Left | Operator::Right => own_width(scope, a),
            Operator::Add
            | Operator::Sub
            | Operator::Mul
            | Operator::And
            | Operator::Or
            | Operator::Xor => own_width(scope, a).max(own_width(scope, b)),
        },
        VExpr::Choose(_, this, other) => own_width(scope, this).max(own_width(scope, other)),
        VExpr::Join(parts) => parts_width(scope, parts),
        VExpr::Repeat(times, a) => *times * own_width(scope, a),
    }
}

// The length of parts together.
#[cycle(widths)]
fn parts_width(scope: &Scope<'_>, parts: &[VExpr]) -> u32
    requires narrow { AreNarrow (widths_of (module_in scope.now)) (vexpr_trees parts.now) }
    requires small { width_of_parts (widths_of (module_in scope.now)) (vexpr_trees parts.now) ≤ 64 }
    ensures { result ≡ width_of_parts (widths_of (module_in scope.now)) (vexpr_trees parts.now) }
{
    let [first, rest @ ..] = parts else {
        return 0;
    };
    own_width(scope, first) + parts_width(scope, rest)
}

// The lengths of an operator's operands, from the length of its context and, where it asks for them, their own.
fn operand_lengths(
    scope: &Scope<'_>,
    operator: Operator,
    length: u32,
    a: &VExpr,
    b: &VExpr,
) -> (u32, u32)
    requires narrow_left { IsNarrow (widths_of (module_in scope.now)) (vexpr_tree a.now) }
    requires narrow_right { IsNarrow (widths_of (module_in scope.now)) (vexpr_tree b.now) }
    requires small { length ≤ 64 }
    ensures left { result.0 ≡ left_length operator length (v_width (widths_of (module_in scope.now)) (vexpr_tree a.now)) (v_width (widths_of (module_in scope.now)) (vexpr_tree b.now)) }
    ensures right { result.1 ≡ right_length operator length (v_width (widths_of (module_in scope.now)) (vexpr_tree a.now)) (v_width (widths_of (module_in scope.now)) (vexpr_tree b.now)) }
    ensures small { (result.0 ≤ 64) × (result.1 ≤ 64) }
{
    match operator {
        Operator::Equal
        | Operator::Unequal
        | Operator::Less
        | Operator::LessEqual
        | Operator::Greater
        | Operator::GreaterEqual => {
            let both = own_width(scope, a).max(own_width(scope, b));
            (both, both)
        }
        Operator::BothTrue | Operator::OneTrue => (own_width(scope, a), own_width(scope, b)),
        Operator::Left | Operator::Right => (length, own_width(scope, b)),
        Operator::Add
        | Operator::Sub
        | Operator::Mul
        | Operator::And
        | Operator::Or
        | Operator::Xor => (length, length),
    }
}

fn two(
    alloc: Global,
    operator: Operator,
    length: Length,
    a: Code,
    b: Code,
) -> Result<Code, AllocError>
    ensures { IfOk result (λ code. (values : List ℕ) (cells : List (List ℕ)) → code_value values cells code ≡ operated operator length.bits (code_value values cells a) (code_value values cells b)) }
{
    Ok(Code::Two(operator, length, Box::new(alloc, a)?, Box::new(alloc, b)?))
}

// The bits of a name from a high one down to a low one.
fn select(
    alloc: Global,
    scope: &Scope<'_>,
    name: &Name,
    high: u32,
    low: u32,
) -> Result<Code, AllocError>
    requires { high - low < 64 }
    ensures { IfOk result (λ code. (length : ℕ) → Means (module_in scope.now) (BitsTree name.now high low) length code) }
{
    let length = Length::of(high.saturating_sub(low) + 1);
    two(
        alloc,
        Operator::Right,
        length,
        Code::Value(scope.place(name)),
        Code::Number(u64::from(low)),
    )
}

// A value in front of others of a length together.
fn beside(
    alloc: Global,
    length: Length,
    high: Code,
    low: u32,
    rest: Code,
) -> Result<Code, AllocError>
    ensures { IfOk result (λ code. (values : List ℕ) (cells : List (List ℕ)) → code_value values cells high * 2 ^ low + code_value values cells rest < 2 ^ length.bits
        → code_value values cells code ≡ code_value values cells high * 2 ^ low + code_value values cells rest) }
{
    let high = two(
        alloc,
        Operator::Left,
        length,
        high,
        Code::Number(u64::from(low)),
    )?;
    two(alloc, Operator::Add, length, high, rest)
}

// The number with a 1 at each multiple of a width, so many times.
fn marks(times: u32, width: u32) -> u64
    requires some { 1 ≤ width }
    requires small { times * width ≤ 64 }
    ensures { result ≡ repeated times width 1 }
{
    let mut marks = 0u64;
    'each: for place in 0..times {
        marks += 1u64 << (place * width);
    }
    marks
}

// A value of a width, so many times.
fn repeat(alloc: Global, times: u32, width: u32, a: Code) -> Result<Code, AllocError>
    requires { times * width ≤ 64 }
    ensures { IfOk result (λ code. (values : List ℕ) (cells : List (List ℕ)) → code_value values cells a < 2 ^ width
        → code_value values cells code ≡ repeated times width (code_value values cells a)) }
{
    if width == 0 {
        return Ok(Code::Number(0));
    }
    let marks = Code::Number(marks(times, width));
    two(alloc, Operator::Mul, Length::of(times * width), a, marks)
}

/// An expression at a length.
#[cycle(compiled)]
pub fn compile(alloc: Global, scope: &Scope<'_>, e: &VExpr, length: u32) -> Result<Code, AllocError>
    requires narrow { IsNarrow (widths_of (module_in scope.now)) (vexpr_tree e.now) }
    requires small { length ≤ 64 }
    ensures { IfOk result (Means (module_in scope.now) (vexpr_tree e.now) length) }
{
    match e {
        VExpr::Number(word) => Ok(Code::Number(word.bits)),
        VExpr::Named(name) => Ok(Code::Value(scope.place(name))),
        VExpr::Bits(name, high, low) => select(alloc, scope, name, *high, *low),
        VExpr::Cell(name, index) => {
            let index = compile(alloc, scope, index, own_width(scope, index))?;
            Ok(Code::Cell(scope.array(name), Box::new(alloc, index)?))
        }
        VExpr::One(VOne::Complement, a) => {
            let a = compile(alloc, scope, a, length)?;
            Ok(Code::Complement(Length::of(length), Box::new(alloc, a)?))
        }
        VExpr::One(VOne::Negate, a) => {
            let a = compile(alloc, scope, a, own_width(scope, a))?;
            Ok(Code::Negate(Box::new(alloc, a)?))
        }
        VExpr::Two(operator, a, b) => {
            let (left, right) = operand_lengths(scope, *operator, length, a, b);
            let a = compile(alloc, scope, a, left)?;
            let b = compile(alloc, scope, b, right)?;
            two(alloc, *operator, Length::of(length), a, b)
        }
        VExpr::Choose(test, this, other) => {
            let test = compile(alloc, scope, test, own_width(scope, test))?;
            let this = compile(alloc, scope, this, length)?;
            let other = compile(alloc, scope, other, length)?;
            Ok(Code::Choose(
                Box::new(alloc, test)?,
                Box::new(alloc, this)?,
                Box::new(alloc, other)?,
            ))
        }
        VExpr::Join(parts) => {
            let (joined, _) = compile_join(alloc, scope, parts)?;
            Ok(joined)
        }
        VExpr::Repeat(times, a) => {
            let (repeated, _) = compile_repeat(alloc, scope, *times, a)?;
            Ok(repeated)
        }
    }
}

// A part at its own length, with that length.
#[cycle(compiled)]
fn compile_part(alloc: Global, scope: &Scope<'_>, e: &VExpr) -> Result<(Code, u32), AllocError>
    requires { IsNarrow (widths_of (module_in scope.now)) (vexpr_tree e.now) }
    ensures value { IfOk result (λ part. Means (module_in scope.now) (vexpr_tree e.now) part.1 part.0) }
    ensures width { IfOk result (λ part. part.1 ≡ v_width (widths_of (module_in scope.now)) (vexpr_tree e.now)) }
{
    match e {
        VExpr::Join(parts) => compile_join(alloc, scope, parts),
        VExpr::Repeat(times, a) => compile_repeat(alloc, scope, *times, a),
        _ => {
            let width = own_width(scope, e);
            let part = compile(alloc, scope, e, width)?;
            Ok((part, width))
        }
    }
}

// A part so many times, with the length of all of them.
#[cycle(compiled)]
fn compile_repeat(
    alloc: Global,
    scope: &Scope<'_>,
    times: u32,
    a: &VExpr,
) -> Result<(Code, u32), AllocError>
    requires narrow { IsNarrow (widths_of (module_in scope.now)) (vexpr_tree a.now) }
    requires small { times * v_width (widths_of (module_in scope.now)) (vexpr_tree a.now) ≤ 64 }
    ensures value { let width = v_width (widths_of (module_in scope.now)) (vexpr_tree a.now) in
        IfOk result (λ all. (values : List ℕ) (cells : List (List ℕ)) → AreWithin (module_in scope.now) values cells
        → code_value values cells all.0 ≡ repeated times width (v_value (env_of (module_in scope.now) values cells) (vexpr_tree a.now) width)) }
    ensures width { IfOk result (λ all. all.1 ≡ times * v_width (widths_of (module_in scope.now)) (vexpr_tree a.now)) }
{
    let (a, width) = compile_part(alloc, scope, a)?;
    let all = repeat(alloc, times, width, a)?;
    Ok((all, times * width))
}

// Parts together, the first of which is the highest, with their length.
#[cycle(compiled)]
fn compile_join(
    alloc: Global,
    scope: &Scope<'_>,
    parts: &[VExpr],
) -> Result<(Code, u32), AllocError>
    requires narrow { AreNarrow (widths_of (module_in scope.now)) (vexpr_trees parts.now) }
    requires small { width_of_parts (widths_of (module_in scope.now)) (vexpr_trees parts.now) ≤ 64 }
    ensures value { IfOk result (λ joined. (values : List ℕ) (cells : List (List ℕ)) → AreWithin (module_in scope.now) values cells
        → code_value values cells joined.0 ≡ parts_value (env_of (module_in scope.now) values cells) (vexpr_trees parts.now)) }
    ensures width { IfOk result (λ joined. joined.1 ≡ width_of_parts (widths_of (module_in scope.now)) (vexpr_trees parts.now)) }
{
    let [first, rest @ ..] = parts else {
        return Ok((Code::Number(0), 0));
    };
    let (high, width) = compile_part(alloc, scope, first)?;
    let (rest, low) = compile_join(alloc, scope, rest)?;
    let both = width + low;
    let joined = beside(alloc, Length::of(both), high, low, rest)?;
    Ok((joined, both))
}

/// An expression for a target of a width.
pub fn compile_assigned(
    alloc: Global,
    scope: &Scope<'_>,
    e: &VExpr,
    width: u32,
) -> Result<Code, AllocError>
    requires narrow { IsNarrow (widths_of (module_in scope.now)) (vexpr_tree e.now) }
    requires small { width ≤ 64 }
    ensures { IfOk result (MeansAssigned (module_in scope.now) (vexpr_tree e.now) width) }
{
    compile(alloc, scope, e, width.max(own_width(scope, e)))
}

/// An expression at its own length.
pub fn compile_alone(alloc: Global, scope: &Scope<'_>, e: &VExpr) -> Result<Code, AllocError>
    requires { IsNarrow (widths_of (module_in scope.now)) (vexpr_tree e.now) }
    ensures { IfOk result (Means (module_in scope.now) (vexpr_tree e.now) (v_width (widths_of (module_in scope.now)) (vexpr_tree e.now))) }
{
    compile(alloc, scope, e, own_width(scope, e))
}
