//! Expressions from tokens.

ghost use Rattle.std.specs.Prelude.{◌≡◌, ◌+◌, ◌<◌, ◌≤◌, ◌^◌, ℕ, [], IfOk, IfErr, SomeIff, length, drop, ◌&&◌, ◌||◌, ◌==◌, ◌*◌, ◌-◌, IsTrue, nat_lt};
ghost use Rattle.lisa_tree.specs.Expressions.{expr_tree, expr_depth};
ghost use Rattle.lisa_tree.specs.Grammar.{is_binary, binary_value};
ghost use Rattle.lisa_tree.specs.Tokens.{toks};
ghost use Rattle.operator_levels.specs.Stacks.{stack_in};
ghost use Rattle.lisa_behav_reader.specs.Gives.{Gives, IsLeft, seen, measured_tree};
ghost use Rattle.lisa_behav_reader.specs.Reading.{reads, whole, operands, unary, operator_of, operator_at, push, finish, branches_of, whole_of, named_of, boundary_of, inside_of, input_of, pattern_of, primary_of, unary_of};

use crate::depths::Measured;
use crate::misses::Missed;
use crate::signs::{name, past};
use lisa_tree::{Base, BoundaryField, Expr, Keyword, Operator, Sign, Token, TokenPart};
use lisa_words::Name;
use operator_levels::{JoinFault, Operands};
use std::alloc::Global;

// The operator that a sign is.
fn operator_of(sign: Sign) -> Option<Operator>
    ensures { result ≡ operator_of sign }
{
    match sign {
        Sign::OrOr => Some(Operator::OneTrue),
        Sign::AndAnd => Some(Operator::BothTrue),
        Sign::Or => Some(Operator::Or),
        Sign::Caret => Some(Operator::Xor),
        Sign::And => Some(Operator::And),
        Sign::EqualEqual => Some(Operator::Equal),
        Sign::NotEqual => Some(Operator::Unequal),
        Sign::Less => Some(Operator::Less),
        Sign::LessEqual => Some(Operator::LessEqual),
        Sign::Greater => Some(Operator::Greater),
        Sign::GreaterEqual => Some(Operator::GreaterEqual),
        Sign::ShiftLeft => Some(Operator::Left),
        Sign::ShiftRight => Some(Operator::Right),
        Sign::Plus => Some(Operator::Add),
        Sign::Minus => Some(Operator::Sub),
        Sign::Star => Some(Operator::Mul),
        _ => None,
    }
}

// The operator at the front.
fn operator_at(tokens: &[Token]) -> Option<Operator>
    ensures { result ≡ operator_at (toks tokens.now) }
{
    match tokens {
        [
            Token {
                part: TokenPart::Sign(sign),
                ..
            },
            ..
        ] => operator_of(*sign),
        _ => None,
    }
}

// The tokens behind the first one.
fn behind_one(tokens: &[Token]) -> &[Token]
    ensures value { toks result.now ≡ drop 1 (toks tokens.now) }
    ensures shorter { length result.now ≤ length tokens.now }
{
    match tokens {
        [_, rest @ ..] => rest,
        [] => tokens,
    }
}

// The operands that wait, with one more and the operator behind it, where so many tokens are left.
fn add_operand(
    alloc: Global,
    waiting: Operands<Measured>,
    operand: Measured,
    operator: Operator,
    budget: u32,
    left: usize,
) -> Result<Operands<Measured>, Missed>
    ensures exact { Gives (stack_in measured_tree) result (push budget (stack_in measured_tree waiting) (expr_tree operand.tree) operator) }
    ensures place { IfErr result (IsLeft left) }
{
    match waiting.push(alloc, operand, operator, budget) {
        Ok(waiting) => Ok(waiting),
        Err(JoinFault::TooDeep) => Err(Missed::At(left)),
        Err(JoinFault::NoMemory) => Err(Missed::NoMemory),
    }
}

// The tree of all operands, where so many tokens are left.
fn join_all(
    alloc: Global,
    waiting: Operands<Measured>,
    operand: Measured,
    budget: u32,
    left: usize,
) -> Result<Measured, Missed>
    ensures exact { Gives measured_tree result (finish budget (stack_in measured_tree waiting) (expr_tree operand.tree)) }
    ensures deep { operand.depth ≤ budget → IfOk result (λ x. x.depth ≤ budget) }
    ensures place { IfErr result (IsLeft left) }
{
    match waiting.finish(alloc, operand, budget) {
        Ok(tree) => Ok(tree),
        Err(JoinFault::TooDeep) => Err(Missed::At(left)),
        Err(JoinFault::NoMemory) => Err(Missed::NoMemory),
    }
}

/// A whole expression of this depth at most, and the tokens behind it. Recursion is as deep as the depth and the brackets together.
#[cycle(expressions)]
pub fn expression(
    alloc: Global,
    tokens: &[Token],
    budget: u32,
) -> Result<(Measured, &[Token]), Missed>
    ensures exact { Gives seen result (reads (whole budget (toks tokens.now))) }
    ensures deep { IfOk result (λ x. x.0.depth ≤ budget) }
    ensures shorter { IfOk result (λ x. length x.1.now < length tokens.now) }
    ensures place { IfErr result (IsLeft (length tokens.now)) }
{
    test_and_branches(alloc, tokens, budget)
}

// Operands, and branches where a `?` follows.
#[cycle(expressions)]
#[tactic(auto, unfolding(crate::specs::Reading::whole_of))]
fn test_and_branches(
    alloc: Global,
    tokens: &[Token],
    budget: u32,
) -> Result<(Measured, &[Token]), Missed>
    ensures exact { Gives seen result (whole_of reads budget (toks tokens.now)) }
    ensures deep { IfOk result (λ x. x.0.depth ≤ budget) }
    ensures shorter { IfOk result (λ x. length x.1.now < length tokens.now) }
    ensures place { IfErr result (IsLeft (length tokens.now)) }
{
    let (test, rest) = joined(alloc, tokens, budget)?;
    let [
        Token {
            part: TokenPart::Sign(Sign::Question),
            ..
        },
        rest @ ..,
    ] = rest
    else {
        return Ok((test, rest));
    };
    branches(alloc, test, rest, budget)
}

// The branches behind a test and its `?`.
#[cycle(expressions)]
#[tactic(auto, unfolding(crate::specs::Reading::branches_of))]
fn branches(
    alloc: Global,
    test: Measured,
    tokens: &[Token],
    budget: u32,
) -> Result<(Measured, &[Token]), Missed>
    ensures exact { Gives seen result (branches_of reads (expr_tree test.tree) budget (toks tokens.now)) }
    ensures deep { IfOk result (λ x. x.0.depth ≤ budget) }
    ensures shorter { IfOk result (λ x. length x.1.now ≤ length tokens.now) }
    ensures place { IfErr result (IsLeft (length tokens.now)) }
{
    if budget <= test.depth {
        return Err(Missed::At(tokens.len()));
    }
    let (chosen, rest) = expression(alloc, tokens, budget - 1)?;
    let rest = past(rest, Sign::Colon)?;
    let (other, rest) = expression(alloc, rest, budget - 1)?;
    let depth = 1 + test.depth.max(chosen.depth.max(other.depth));
    let Measured { tree: test, .. } = test;
    let Measured { tree: chosen, .. } = chosen;
    let Measured { tree: other, .. } = other;
    let test = Box::new(alloc, test)?;
    let chosen = Box::new(alloc, chosen)?;
    let tree = Expr::Choose(test, chosen, Box::new(alloc, other)?);
    Ok((Measured { tree, depth }, rest))
}

// Operands with operators between them.
#[cycle(expressions)]
fn joined(alloc: Global, tokens: &[Token], budget: u32) -> Result<(Measured, &[Token]), Missed>
    ensures exact { Gives seen result (reads (operands [] budget (toks tokens.now))) }
    ensures deep { IfOk result (λ x. x.0.depth ≤ budget) }
    ensures shorter { IfOk result (λ x. length x.1.now < length tokens.now) }
    ensures place { IfErr result (IsLeft (length tokens.now)) }
{
    let mut waiting = Operands::new(alloc);
    let mut rest = tokens;
    'operands: loop {
        let (operand, after) = operand(alloc, rest, budget)?;
        let Some(operator) = operator_at(after) else {
            let tree = join_all(alloc, waiting, operand, budget, after.len())?;
            return Ok((tree, after));
        };
        waiting = add_operand(alloc, waiting, operand, operator, budget, after.len())?;
        rest = behind_one(after);
    }
}

// One operand.
#[cycle(expressions)]
fn operand(alloc: Global, tokens: &[Token], budget: u32) -> Result<(Measured, &[Token]), Missed>
    ensures exact { Gives seen result (reads (unary budget (toks tokens.now))) }
    ensures deep { IfOk result (λ x. x.0.depth ≤ budget) }
    ensures shorter { IfOk result (λ x. length x.1.now < length tokens.now) }
    ensures place { IfErr result (IsLeft (length tokens.now)) }
{
    prefixed(alloc, tokens, budget)
}

// A primary expression behind any number of `~`, `!` and casts.
#[cycle(expressions)]
#[tactic(auto, unfolding(crate::specs::Reading::unary_of))]
fn prefixed(alloc: Global, tokens: &[Token], budget: u32) -> Result<(Measured, &[Token]), Missed>
    ensures exact { Gives seen result (unary_of reads budget (toks tokens.now)) }
    ensures deep { IfOk result (λ x. x.0.depth ≤ budget) }
    ensures shorter { IfOk result (λ x. length x.1.now < length tokens.now) }
    ensures place { IfErr result (IsLeft (length tokens.now)) }
{
    if budget == 0 {
        return Err(Missed::At(tokens.len()));
    }
    match tokens {
        [
            Token {
                part: TokenPart::Sign(Sign::Tilde),
                ..
            },
            rest @ ..,
        ] => {
            let (Measured { tree, depth }, rest) = operand(alloc, rest, budget - 1)?;
            let tree = Expr::Complement(Box::new(alloc, tree)?);
            Ok((
                Measured {
                    tree,
                    depth: depth + 1,
                },
                rest,
            ))
        }
        [
            Token {
                part: TokenPart::Sign(Sign::Exclamation),
                ..
            },
            rest @ ..,
        ] => {
            let (Measured { tree, depth }, rest) = operand(alloc, rest, budget - 1)?;
            let tree = Expr::Negate(Box::new(alloc, tree)?);
            Ok((
                Measured {
                    tree,
                    depth: depth + 1,
                },
                rest,
            ))
        }
        [
            Token {
                part: TokenPart::Sign(Sign::OpenRound),
                ..
            },
            Token {
                part: TokenPart::TypeWord(shape),
                ..
            },
            Token {
                part: TokenPart::Sign(Sign::CloseRound),
                ..
            },
            rest @ ..,
        ] => {
            let (Measured { tree, depth }, rest) = operand(alloc, rest, budget - 1)?;
            let tree = Expr::Cast(*shape, Box::new(alloc, tree)?);
            Ok((
                Measured {
                    tree,
                    depth: depth + 1,
                },
                rest,
            ))
        }
        _ => primary(alloc, tokens, budget),
    }
}

// A leaf, a name with its index, or an expression in parentheses.
#[cycle(expressions)]
#[tactic(auto, unfolding(crate::specs::Reading::primary_of))]
fn primary(alloc: Global, tokens: &[Token], budget: u32) -> Result<(Measured, &[Token]), Missed>
    requires { 0 < budget }
    ensures exact { Gives seen result (primary_of reads budget (toks tokens.now)) }
    ensures deep { IfOk result (λ x. x.0.depth ≤ budget) }
    ensures shorter { IfOk result (λ x. length x.1.now < length tokens.now) }
    ensures place { IfErr result (IsLeft (length tokens.now)) }
{
    let [first, rest @ ..] = tokens else {
        return Err(Missed::At(0));
    };
    match &first.part {
        TokenPart::Number(value, base) => Ok((leaf(Expr::Number(*value, *base)), rest)),
        TokenPart::Pattern(digits) => pattern(digits, rest),
        TokenPart::Named(name) => named(alloc, name, rest, budget),
        TokenPart::Reserved(Keyword::In) => input(alloc, rest),
        TokenPart::Reserved(Keyword::Decoded) => Ok((leaf(Expr::Decoded), rest)),
        TokenPart::Reserved(Keyword::PipelineRegister) => boundary(alloc, rest),
        TokenPart::Sign(Sign::OpenRound) => inside(alloc, rest, budget),
        _ => Err(Missed::At(tokens.len())),
    }
}

// An expression without parts.
fn leaf(tree: Expr) -> Measured
    requires { expr_depth (expr_tree tree) ≡ 1 }
    ensures tree { result.tree ≡ tree }
    ensures deep { result.depth ≡ 1 }
{
    Measured { tree, depth: 1 }
}

// The number that binary digits stand for, where it fits.
fn binary(digits: &[u8]) -> Option<u64>
    ensures { SomeIff result (IsTrue (is_binary digits.now && nat_lt (binary_value digits.now) (2 ^ 64))) (binary_value digits.now) }
{
    let mut value = 0;
    let mut left = digits;
    'digits: while let [digit, rest @ ..] = left {
        value = with_digit(value, *digit)?;
        left = rest;
    }
    Some(value)
}

// A number with one more binary digit behind it, where it fits.
fn with_digit(value: u64, digit: u8) -> Option<u64>
    ensures { SomeIff result ((IsTrue (digit == 48 || digit == 49)) × (2 * value + (digit - 48) < 2 ^ 64)) (2 * value + (digit - 48)) }
{
    match digit {
        b'0' => value.checked_mul(2),
        b'1' => value.checked_mul(2)?.checked_add(1),
        _ => None,
    }
}

// The number that a pattern without `x` stands for, where so many tokens stand behind it.
#[tactic(auto, unfolding(crate::specs::Reading::pattern_of))]
fn pattern<'a>(digits: &Name, tokens: &'a [Token]) -> Result<(Measured, &'a [Token]), Missed>
    ensures exact { Gives seen result (pattern_of digits.now (toks tokens.now)) }
    ensures deep { IfOk result (λ x. x.0.depth ≡ 1) }
    ensures shorter { IfOk result (λ x. length x.1.now ≤ length tokens.now) }
    ensures place { IfErr result (IsLeft (length tokens.now)) }
{
    match binary(digits.as_bytes()) {
        Some(value) => Ok((leaf(Expr::Number(value, Base::Binary)), tokens)),
        None => Err(Missed::At(tokens.len())),
    }
}

// A field of the boundary before, behind IN.
#[tactic(auto, unfolding(crate::specs::Reading::input_of))]
fn input(alloc: Global, tokens: &[Token]) -> Result<(Measured, &[Token]), Missed>
    ensures exact { Gives seen result (input_of (toks tokens.now)) }
    ensures deep { IfOk result (λ x. x.0.depth ≡ 1) }
    ensures shorter { IfOk result (λ x. length x.1.now ≤ length tokens.now) }
    ensures place { IfErr result (IsLeft (length tokens.now)) }
{
    match tokens {
        [
            Token {
                part: TokenPart::Sign(Sign::Dot),
                ..
            },
            Token {
                part: TokenPart::Named(field),
                ..
            },
            rest @ ..,
        ] => {
            let field = Name::from_bytes(alloc, field.as_bytes())?;
            Ok((leaf(Expr::Input(field)), rest))
        }
        _ => Err(Missed::At(tokens.len())),
    }
}

// A field of a named boundary, behind PIPELINE_REGISTER.
#[tactic(auto, unfolding(crate::specs::Reading::boundary_of))]
fn boundary(alloc: Global, tokens: &[Token]) -> Result<(Measured, &[Token]), Missed>
    ensures exact { Gives seen result (boundary_of (toks tokens.now)) }
    ensures deep { IfOk result (λ x. x.0.depth ≡ 1) }
    ensures shorter { IfOk result (λ x. length x.1.now ≤ length tokens.now) }
    ensures place { IfErr result (IsLeft (length tokens.now)) }
{
    let rest = past(tokens, Sign::OpenRound)?;
    let (pipe, rest) = name(alloc, rest)?;
    let rest = past(rest, Sign::Comma)?;
    let (before, rest) = name(alloc, rest)?;
    let rest = past(rest, Sign::Slash)?;
    let (after, rest) = name(alloc, rest)?;
    let rest = past(rest, Sign::CloseRound)?;
    let rest = past(rest, Sign::Dot)?;
    let (field, rest) = name(alloc, rest)?;
    let place = BoundaryField {
        pipe,
        before,
        after,
        field,
    };
    Ok((leaf(Expr::Boundary(Box::new(alloc, place)?)), rest))
}

// An expression in parentheses, behind its `(`.
#[cycle(expressions)]
#[tactic(auto, unfolding(crate::specs::Reading::inside_of))]
fn inside(alloc: Global, tokens: &[Token], budget: u32) -> Result<(Measured, &[Token]), Missed>
    ensures exact { Gives seen result (inside_of reads budget (toks tokens.now)) }
    ensures deep { IfOk result (λ x. x.0.depth ≤ budget) }
    ensures shorter { IfOk result (λ x. length x.1.now ≤ length tokens.now) }
    ensures place { IfErr result (IsLeft (length tokens.now)) }
{
    let (tree, rest) = expression(alloc, tokens, budget)?;
    Ok((tree, past(rest, Sign::CloseRound)?))
}

// A name with its index, if one follows.
#[cycle(expressions)]
#[tactic(auto, unfolding(crate::specs::Reading::named_of))]
fn named<'a>(
    alloc: Global,
    name: &Name,
    tokens: &'a [Token],
    budget: u32,
) -> Result<(Measured, &'a [Token]), Missed>
    requires { 0 < budget }
    ensures exact { Gives seen result (named_of reads name.now budget (toks tokens.now)) }
    ensures deep { IfOk result (λ x. x.0.depth ≤ budget) }
    ensures shorter { IfOk result (λ x. length x.1.now ≤ length tokens.now) }
    ensures place { IfErr result (IsLeft (length tokens.now)) }
{
    let name = Name::from_bytes(alloc, name.as_bytes())?;
    let [
        Token {
            part: TokenPart::Sign(Sign::OpenSquare),
            ..
        },
        rest @ ..,
    ] = tokens
    else {
        return Ok((leaf(Expr::Named(name)), tokens));
    };
    let (Measured { tree, depth }, rest) = expression(alloc, rest, budget - 1)?;
    let rest = past(rest, Sign::CloseSquare)?;
    let tree = Expr::Element(name, Box::new(alloc, tree)?);
    Ok((
        Measured {
            tree,
            depth: depth + 1,
        },
        rest,
    ))
}
