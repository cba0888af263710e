// Expressions from tokens.

ghost use Rattle.std.specs.Prelude.{◌≡◌, ◌+◌, ◌<◌, ◌≤◌, ℕ, [], IfOk, IfErr, IfSome, option_map, length, drop, ◌^◌};
ghost use Rattle.verilog_places.specs.Trees.{PlacedTree, placed_tree, placed_trees, moved, End, Join};
ghost use Rattle.verilog_places.specs.Spelling.{PlacedToks};
ghost use Rattle.operator_levels.specs.Stacks.{stack_in};
ghost use Rattle.verilog_expression_reader.specs.Past.{placed_toks, past_of};
ghost use Rattle.verilog_text.specs.declared.tokens.VSign.TheVariants.{Comma};
ghost use Rattle.verilog_expression_reader.specs.Stops.{front_binds};
ghost use Rattle.verilog_expression_reader.specs.Fronts.{IsFront, IsAnswer};
ghost use Rattle.verilog_expression_reader.specs.Gives.{Gives, IsLeft, seen, seen_parts, measured_tree};
ghost use Rattle.verilog_expression_reader.specs.Reading.{reads, depth as depth_of, whole, operands, unary, primary, parts, operator_of, operator_at, push, finish, branches_of, whole_of, bits_of, cell_of, index_of, named_of, inside_of, join_of, repeat_of, braces_of, primary_of, one_of, unary_of};

use crate::depths::{Measured, MeasuredParts};
use crate::misses::Missed;
use crate::signs::{number, past};
use lisa_words::{Name, Operator};
use operator_levels::{JoinFault, Operands};
use std::alloc::Global;
use verilog_places::PlacedExpr;
use verilog_text::{VOne, VSign, VToken, VTokenPart};

// The operator that a sign is.
fn operator_of(sign: VSign) -> Option<Operator>
    ensures { result ≡ operator_of sign }
{
    match sign {
        VSign::OrOr => Some(Operator::OneTrue),
        VSign::AndAnd => Some(Operator::BothTrue),
        VSign::Or => Some(Operator::Or),
        VSign::Caret => Some(Operator::Xor),
        VSign::And => Some(Operator::And),
        VSign::EqualEqual => Some(Operator::Equal),
        VSign::NotEqual => Some(Operator::Unequal),
        VSign::Less => Some(Operator::Less),
        VSign::LessEqual => Some(Operator::LessEqual),
        VSign::Greater => Some(Operator::Greater),
        VSign::GreaterEqual => Some(Operator::GreaterEqual),
        VSign::ShiftLeft => Some(Operator::Left),
        VSign::ShiftRight => Some(Operator::Right),
        VSign::Plus => Some(Operator::Add),
        VSign::Minus => Some(Operator::Sub),
        VSign::Star => Some(Operator::Mul),
        _ => None,
    }
}

// The operator at the front.
fn operator_at(tokens: &[VToken]) -> Option<Operator>
    ensures { result ≡ operator_at (placed_toks tokens.now) }
{
    match tokens {
        [
            VToken {
                part: VTokenPart::Sign(sign),
                ..
            },
            ..
        ] => operator_of(*sign),
        _ => None,
    }
}

// The tokens behind the first one.
fn behind_one(tokens: &[VToken]) -> &[VToken]
    ensures value { placed_toks result.now ≡ drop 1 (placed_toks tokens.now) }
    ensures shorter { length result.now ≤ length tokens.now }
{
    match tokens {
        [_, rest @ ..] => rest,
        [] => tokens,
    }
}

// The operands that wait, with one more and the operator behind it, where so many tokens are left.
fn add_operand(
    alloc: Global,
    waiting: Operands<Measured>,
    operand: Measured,
    operator: Operator,
    budget: u32,
    left: usize,
) -> Result<Operands<Measured>, Missed>
    ensures exact { Gives (stack_in measured_tree) result (push budget (stack_in measured_tree waiting) (placed_tree operand.tree) operator) }
    ensures place { IfErr result (IsLeft left) }
{
    match waiting.push(alloc, operand, operator, budget) {
        Ok(waiting) => Ok(waiting),
        Err(JoinFault::TooDeep) => Err(Missed::At(left)),
        Err(JoinFault::NoMemory) => Err(Missed::NoMemory),
    }
}

// The tree of all operands, where so many tokens are left.
fn join_all(
    alloc: Global,
    waiting: Operands<Measured>,
    operand: Measured,
    budget: u32,
    left: usize,
) -> Result<Measured, Missed>
    ensures exact { Gives measured_tree result (finish budget (stack_in measured_tree waiting) (placed_tree operand.tree)) }
    ensures deep { operand.depth ≤ budget → IfOk result (λ x. x.depth ≤ budget) }
    ensures place { IfErr result (IsLeft left) }
{
    match waiting.finish(alloc, operand, budget) {
        Ok(tree) => Ok(tree),
        Err(JoinFault::TooDeep) => Err(Missed::At(left)),
        Err(JoinFault::NoMemory) => Err(Missed::NoMemory),
    }
}

/// The expression at the front, of this depth at most, and the tokens behind it. It goes on as far as an operator, a `?` or a `[` lets it.
/// Recursion is as deep as the depth and the brackets together.
pub fn expression(
    alloc: Global,
    tokens: &[VToken],
    budget: u32,
) -> Result<(Measured, &[VToken]), Missed>
    ensures found { IfOk result (λ x. IsFront budget (placed_toks tokens.now) (seen x).0 (seen x).1) }
    ensures only { (e : PlacedTree) (rest : PlacedToks) → IsFront budget (placed_toks tokens.now) e rest → front_binds rest ≡ 0 → IsAnswer e rest result }
    ensures exact { Gives seen result (reads (whole budget (placed_toks tokens.now))) }
    ensures deep { IfOk result (λ x. x.0.depth ≤ budget) }
    ensures shorter { IfOk result (λ x. length x.1.now < length tokens.now) }
    ensures place { IfErr result (IsLeft (length tokens.now)) }
{
    any(alloc, tokens, budget)
}

// A whole expression of this depth at most.
#[cycle(expressions)]
fn any(alloc: Global, tokens: &[VToken], budget: u32) -> Result<(Measured, &[VToken]), Missed>
    ensures exact { Gives seen result (reads (whole budget (placed_toks tokens.now))) }
    ensures deep { IfOk result (λ x. x.0.depth ≤ budget) }
    ensures shorter { IfOk result (λ x. length x.1.now < length tokens.now) }
    ensures place { IfErr result (IsLeft (length tokens.now)) }
{
    test_and_branches(alloc, tokens, budget)
}

// Operands, and branches where a `?` follows.
#[cycle(expressions)]
#[tactic(auto, unfolding(crate::specs::Reading::whole_of))]
fn test_and_branches(
    alloc: Global,
    tokens: &[VToken],
    budget: u32,
) -> Result<(Measured, &[VToken]), Missed>
    ensures exact { Gives seen result (whole_of reads budget (placed_toks tokens.now)) }
    ensures deep { IfOk result (λ x. x.0.depth ≤ budget) }
    ensures shorter { IfOk result (λ x. length x.1.now < length tokens.now) }
    ensures place { IfErr result (IsLeft (length tokens.now)) }
{
    let (test, rest) = joined(alloc, tokens, budget)?;
    let [
        VToken {
            part: VTokenPart::Sign(VSign::Question),
            ..
        },
        rest @ ..,
    ] = rest
    else {
        return Ok((test, rest));
    };
    branches(alloc, test, rest, budget)
}

// The branches behind a test and its `?`.
#[cycle(expressions)]
#[tactic(auto, unfolding(crate::specs::Reading::branches_of))]
fn branches(
    alloc: Global,
    test: Measured,
    tokens: &[VToken],
    budget: u32,
) -> Result<(Measured, &[VToken]), Missed>
    ensures exact { Gives seen result (branches_of reads (placed_tree test.tree) budget (placed_toks tokens.now)) }
    ensures deep { IfOk result (λ x. x.0.depth ≤ budget) }
    ensures shorter { IfOk result (λ x. length x.1.now ≤ length tokens.now) }
    ensures place { IfErr result (IsLeft (length tokens.now)) }
{
    if budget <= test.depth {
        return Err(Missed::At(tokens.len()));
    }
    let (chosen, rest) = any(alloc, tokens, budget - 1)?;
    let rest = past(rest, VSign::Colon)?;
    let (other, rest) = any(alloc, rest, budget - 1)?;
    let depth = 1 + test.depth.max(chosen.depth.max(other.depth));
    let at = test.tree.place();
    let Measured { tree: test, .. } = test;
    let Measured { tree: chosen, .. } = chosen;
    let Measured { tree: other, .. } = other;
    let test = Box::new(alloc, test)?;
    let chosen = Box::new(alloc, chosen)?;
    let tree = PlacedExpr::Choose(at, test, chosen, Box::new(alloc, other)?);
    Ok((Measured { tree, depth }, rest))
}

// Operands with operators between them.
#[cycle(expressions)]
fn joined(alloc: Global, tokens: &[VToken], budget: u32) -> Result<(Measured, &[VToken]), Missed>
    ensures exact { Gives seen result (reads (operands [] budget (placed_toks tokens.now))) }
    ensures deep { IfOk result (λ x. x.0.depth ≤ budget) }
    ensures shorter { IfOk result (λ x. length x.1.now < length tokens.now) }
    ensures place { IfErr result (IsLeft (length tokens.now)) }
{
    let mut waiting = Operands::new(alloc);
    let mut rest = tokens;
    'operands: loop {
        let (operand, after) = operand(alloc, rest, budget)?;
        let Some(operator) = operator_at(after) else {
            let tree = join_all(alloc, waiting, operand, budget, after.len())?;
            return Ok((tree, after));
        };
        waiting = add_operand(alloc, waiting, operand, operator, budget, after.len())?;
        rest = behind_one(after);
    }
}

// One operand.
#[cycle(expressions)]
fn operand(alloc: Global, tokens: &[VToken], budget: u32) -> Result<(Measured, &[VToken]), Missed>
    ensures exact { Gives seen result (reads (unary budget (placed_toks tokens.now))) }
    ensures deep { IfOk result (λ x. x.0.depth ≤ budget) }
    ensures shorter { IfOk result (λ x. length x.1.now < length tokens.now) }
    ensures place { IfErr result (IsLeft (length tokens.now)) }
{
    prefixed(alloc, tokens, budget)
}

// A primary expression, behind a `~` or `!` if one stands there.
#[cycle(expressions)]
#[tactic(auto, unfolding(crate::specs::Reading::unary_of))]
fn prefixed(alloc: Global, tokens: &[VToken], budget: u32) -> Result<(Measured, &[VToken]), Missed>
    ensures exact { Gives seen result (unary_of reads budget (placed_toks tokens.now)) }
    ensures deep { IfOk result (λ x. x.0.depth ≤ budget) }
    ensures shorter { IfOk result (λ x. length x.1.now < length tokens.now) }
    ensures place { IfErr result (IsLeft (length tokens.now)) }
{
    if budget == 0 {
        return Err(Missed::At(tokens.len()));
    }
    let [first, rest @ ..] = tokens else {
        return primary(alloc, tokens, budget);
    };
    match &first.part {
        VTokenPart::Sign(VSign::Tilde) => {
            operated(alloc, first.at, VOne::Complement, rest, budget - 1)
        }
        VTokenPart::Sign(VSign::Exclamation) => {
            operated(alloc, first.at, VOne::Negate, rest, budget - 1)
        }
        _ => primary(alloc, tokens, budget),
    }
}

// A primary expression, behind the `~` or `!` at which the whole begins.
#[cycle(expressions)]
fn operated(
    alloc: Global,
    at: u32,
    one: VOne,
    tokens: &[VToken],
    budget: u32,
) -> Result<(Measured, &[VToken]), Missed>
    requires { budget + 1 < 2 ^ 32 }
    ensures exact { Gives seen result (one_of reads at one budget (placed_toks tokens.now)) }
    ensures deep { IfOk result (λ x. x.0.depth ≤ budget + 1) }
    ensures shorter { IfOk result (λ x. length x.1.now < length tokens.now) }
    ensures place { IfErr result (IsLeft (length tokens.now)) }
{
    let (Measured { tree, depth }, rest) = primary(alloc, tokens, budget)?;
    let tree = PlacedExpr::One(at, one, Box::new(alloc, tree)?);
    let depth = depth + 1;
    Ok((Measured { tree, depth }, rest))
}

// One operand without a `~` or `!` in front.
#[cycle(expressions)]
fn primary(alloc: Global, tokens: &[VToken], budget: u32) -> Result<(Measured, &[VToken]), Missed>
    ensures exact { Gives seen result (reads (primary budget (placed_toks tokens.now))) }
    ensures deep { IfOk result (λ x. x.0.depth ≤ budget) }
    ensures shorter { IfOk result (λ x. length x.1.now < length tokens.now) }
    ensures place { IfErr result (IsLeft (length tokens.now)) }
{
    leading(alloc, tokens, budget)
}

// A number, a name with what follows it, or what stands in parentheses or braces.
#[cycle(expressions)]
#[tactic(auto, unfolding(crate::specs::Reading::primary_of))]
fn leading(alloc: Global, tokens: &[VToken], budget: u32) -> Result<(Measured, &[VToken]), Missed>
    ensures exact { Gives seen result (primary_of reads budget (placed_toks tokens.now)) }
    ensures deep { IfOk result (λ x. x.0.depth ≤ budget) }
    ensures shorter { IfOk result (λ x. length x.1.now < length tokens.now) }
    ensures place { IfErr result (IsLeft (length tokens.now)) }
{
    if budget == 0 {
        return Err(Missed::At(tokens.len()));
    }
    let [first, rest @ ..] = tokens else {
        return Err(Missed::At(0));
    };
    match &first.part {
        VTokenPart::Sized(word) => Ok((leaf(PlacedExpr::Number(first.at, *word)), rest)),
        VTokenPart::Named(name) => named(alloc, first.at, name, rest, budget),
        VTokenPart::Sign(VSign::OpenRound) => inside(alloc, first.at, rest, budget),
        VTokenPart::Sign(VSign::OpenBrace) => braces(alloc, first.at, rest, budget),
        _ => Err(Missed::At(tokens.len())),
    }
}

// An expression without parts.
fn leaf(tree: PlacedExpr) -> Measured
    requires { depth_of (placed_tree tree) ≡ 1 }
    ensures tree { result.tree ≡ tree }
    ensures deep { result.depth ≡ 1 }
{
    Measured { tree, depth: 1 }
}

// An expression in parentheses, behind the `(` at which it begins.
#[cycle(expressions)]
#[tactic(auto, unfolding(crate::specs::Reading::inside_of))]
fn inside(
    alloc: Global,
    at: u32,
    tokens: &[VToken],
    budget: u32,
) -> Result<(Measured, &[VToken]), Missed>
    ensures exact { Gives seen result (inside_of reads at budget (placed_toks tokens.now)) }
    ensures deep { IfOk result (λ x. x.0.depth ≤ budget) }
    ensures shorter { IfOk result (λ x. length x.1.now ≤ length tokens.now) }
    ensures place { IfErr result (IsLeft (length tokens.now)) }
{
    let (inner, rest) = any(alloc, tokens, budget)?;
    let rest = past(rest, VSign::CloseRound)?;
    Ok((moved_to(inner, at), rest))
}

// The same expression, which begins here.
fn moved_to(e: Measured, at: u32) -> Measured
    ensures value { placed_tree result.tree ≡ moved at (placed_tree e.tree) }
    ensures deep { result.depth ≡ e.depth }
{
    let Measured { tree, depth } = e;
    Measured {
        tree: tree.moved(at),
        depth,
    }
}

// A name with its index, if one follows.
#[cycle(expressions)]
#[tactic(auto, unfolding(crate::specs::Reading::named_of))]
fn named<'a>(
    alloc: Global,
    at: u32,
    name: &Name,
    tokens: &'a [VToken],
    budget: u32,
) -> Result<(Measured, &'a [VToken]), Missed>
    requires { 0 < budget }
    ensures exact { Gives seen result (named_of reads at name.now budget (placed_toks tokens.now)) }
    ensures deep { IfOk result (λ x. x.0.depth ≤ budget) }
    ensures shorter { IfOk result (λ x. length x.1.now ≤ length tokens.now) }
    ensures place { IfErr result (IsLeft (length tokens.now)) }
{
    let name = Name::from_bytes(alloc, name.as_bytes())?;
    let [
        VToken {
            part: VTokenPart::Sign(VSign::OpenSquare),
            ..
        },
        rest @ ..,
    ] = tokens
    else {
        return Ok((leaf(PlacedExpr::Named(at, name)), tokens));
    };
    index(alloc, at, name, rest, budget)
}

// What stands behind a name and its `[`.
#[cycle(expressions)]
fn index(
    alloc: Global,
    at: u32,
    name: Name,
    tokens: &[VToken],
    budget: u32,
) -> Result<(Measured, &[VToken]), Missed>
    requires { 0 < budget }
    ensures exact { Gives seen result (index_of reads at name budget (placed_toks tokens.now)) }
    ensures deep { IfOk result (λ x. x.0.depth ≤ budget) }
    ensures shorter { IfOk result (λ x. length x.1.now ≤ length tokens.now) }
    ensures place { IfErr result (IsLeft (length tokens.now)) }
{
    match tokens {
        [
            VToken {
                part: VTokenPart::Plain(high, _),
                ..
            },
            rest @ ..,
        ] => bits(at, name, *high, rest),
        _ => cell(alloc, at, name, tokens, budget),
    }
}

// The bits of a name, behind the number of the highest.
#[tactic(auto, unfolding(crate::specs::Reading::bits_of))]
fn bits(at: u32, name: Name, high: u32, tokens: &[VToken]) -> Result<(Measured, &[VToken]), Missed>
    ensures exact { Gives seen result (bits_of at name high (placed_toks tokens.now)) }
    ensures deep { IfOk result (λ x. x.0.depth ≡ 1) }
    ensures shorter { IfOk result (λ x. length x.1.now ≤ length tokens.now) }
    ensures place { IfErr result (IsLeft (length tokens.now)) }
{
    match tokens {
        [
            VToken {
                part: VTokenPart::Sign(VSign::CloseSquare),
                ..
            },
            rest @ ..,
        ] => Ok((leaf(PlacedExpr::Bits(at, name, high, high)), rest)),
        [
            VToken {
                part: VTokenPart::Sign(VSign::Colon),
                ..
            },
            VToken {
                part: VTokenPart::Plain(low, _),
                ..
            },
            VToken {
                part: VTokenPart::Sign(VSign::CloseSquare),
                ..
            },
            rest @ ..,
        ] => Ok((leaf(PlacedExpr::Bits(at, name, high, *low)), rest)),
        _ => Err(Missed::At(tokens.len())),
    }
}

// The cell of a name, behind its `[`.
#[cycle(expressions)]
#[tactic(auto, unfolding(crate::specs::Reading::cell_of))]
fn cell(
    alloc: Global,
    at: u32,
    name: Name,
    tokens: &[VToken],
    budget: u32,
) -> Result<(Measured, &[VToken]), Missed>
    requires { 0 < budget }
    ensures exact { Gives seen result (cell_of reads at name budget (placed_toks tokens.now)) }
    ensures deep { IfOk result (λ x. x.0.depth ≤ budget) }
    ensures shorter { IfOk result (λ x. length x.1.now ≤ length tokens.now) }
    ensures place { IfErr result (IsLeft (length tokens.now)) }
{
    let (Measured { tree, depth }, rest) = any(alloc, tokens, budget - 1)?;
    let rest = past(rest, VSign::CloseSquare)?;
    let tree = PlacedExpr::Cell(at, name, Box::new(alloc, tree)?);
    let depth = depth + 1;
    Ok((Measured { tree, depth }, rest))
}

// A concatenation or replication, behind the `{` at which it begins.
#[cycle(expressions)]
fn braces(
    alloc: Global,
    at: u32,
    tokens: &[VToken],
    budget: u32,
) -> Result<(Measured, &[VToken]), Missed>
    requires { 0 < budget }
    ensures exact { Gives seen result (braces_of reads at budget (placed_toks tokens.now)) }
    ensures deep { IfOk result (λ x. x.0.depth ≤ budget) }
    ensures shorter { IfOk result (λ x. length x.1.now ≤ length tokens.now) }
    ensures place { IfErr result (IsLeft (length tokens.now)) }
{
    match tokens {
        [
            VToken {
                part: VTokenPart::Plain(times, _),
                ..
            },
            VToken {
                part: VTokenPart::Sign(VSign::OpenBrace),
                ..
            },
            rest @ ..,
        ] => repetition(alloc, at, *times, rest, budget),
        _ => concatenation(alloc, at, tokens, budget),
    }
}

// A replication, behind its second `{`.
#[cycle(expressions)]
#[tactic(auto, unfolding(crate::specs::Reading::repeat_of))]
fn repetition(
    alloc: Global,
    at: u32,
    times: u32,
    tokens: &[VToken],
    budget: u32,
) -> Result<(Measured, &[VToken]), Missed>
    requires { 0 < budget }
    ensures exact { Gives seen result (repeat_of reads at times budget (placed_toks tokens.now)) }
    ensures deep { IfOk result (λ x. x.0.depth ≤ budget) }
    ensures shorter { IfOk result (λ x. length x.1.now ≤ length tokens.now) }
    ensures place { IfErr result (IsLeft (length tokens.now)) }
{
    if times == 0 {
        return Err(Missed::At(tokens.len()));
    }
    let (Measured { tree, depth }, rest) = any(alloc, tokens, budget - 1)?;
    let rest = past(rest, VSign::CloseBrace)?;
    let rest = past(rest, VSign::CloseBrace)?;
    let tree = PlacedExpr::Repeat(at, times, Box::new(alloc, tree)?);
    let depth = depth + 1;
    Ok((Measured { tree, depth }, rest))
}

// A concatenation, behind its `{`.
#[cycle(expressions)]
#[tactic(auto, unfolding(crate::specs::Reading::join_of))]
fn concatenation(
    alloc: Global,
    at: u32,
    tokens: &[VToken],
    budget: u32,
) -> Result<(Measured, &[VToken]), Missed>
    requires { 0 < budget }
    ensures exact { Gives seen result (join_of reads at budget (placed_toks tokens.now)) }
    ensures deep { IfOk result (λ x. x.0.depth ≤ budget) }
    ensures shorter { IfOk result (λ x. length x.1.now ≤ length tokens.now) }
    ensures place { IfErr result (IsLeft (length tokens.now)) }
{
    let (all, rest) = parts(alloc, tokens, budget - 1)?;
    let rest = past(rest, VSign::CloseBrace)?;
    Ok((joined_parts(all, at), rest))
}

// The concatenation of parts that begins here.
fn joined_parts(all: MeasuredParts, at: u32) -> Measured
    requires { all.depth + 1 < 2 ^ 32 }
    ensures value { placed_tree result.tree ≡ Join at (placed_trees all.parts.items) }
    ensures deep { result.depth ≡ all.depth + 1 }
{
    let MeasuredParts { parts, depth } = all;
    Measured {
        tree: PlacedExpr::Join(at, parts),
        depth: depth + 1,
    }
}

// One or more expressions with commas between them.
#[cycle(expressions)]
fn parts(
    alloc: Global,
    tokens: &[VToken],
    budget: u32,
) -> Result<(MeasuredParts, &[VToken]), Missed>
    ensures exact { Gives seen_parts result (reads (parts End budget (placed_toks tokens.now))) }
    ensures deep { IfOk result (λ x. x.0.depth ≤ budget) }
    ensures shorter { IfOk result (λ x. length x.1.now < length tokens.now) }
    ensures place { IfErr result (IsLeft (length tokens.now)) }
{
    let mut all = MeasuredParts::new(alloc);
    let mut rest = tokens;
    'parts: loop {
        let (part, after) = any(alloc, rest, budget)?;
        all = all.with_part(part)?;
        let Some(behind) = behind_comma(after) else {
            return Ok((all, after));
        };
        rest = behind;
    }
}

// The tokens behind a comma, if one stands in front.
fn behind_comma(tokens: &[VToken]) -> Option<&[VToken]>
    ensures value { option_map (λ x. placed_toks x.now) result ≡ past_of Comma (placed_toks tokens.now) }
    ensures shorter { IfSome result (λ x. length x.now < length tokens.now) }
{
    match tokens {
        [
            VToken {
                part: VTokenPart::Sign(first),
                ..
            },
            rest @ ..,
        ] if number(*first) == number(VSign::Comma) => Some(rest),
        _ => None,
    }
}
