//! Actions from tokens.

ghost use Rattle.std.specs.Prelude.{◌≡◌, ◌+◌, ◌^◌, ◌<◌, ◌≤◌, IfOk, IfErr, IfSome, Some, None, length};
ghost use Rattle.verilog_places.specs.Trees.{placed_tree, placed_actions};
ghost use Rattle.verilog_expression_reader.specs.Past.{placed_toks};
ghost use Rattle.verilog_expression_reader.specs.Gives.{Gives, IsLeft};
ghost use Rattle.verilog_action_reader.specs.Gives.{seen_expr, seen_action, seen_actions, seen_group, seen_rest};
ghost use Rattle.verilog_action_reader.specs.Reading.{expr, actions, action, within, value_of, set_of, put_of, assign_of, test_of, behind_else, else_of, if_of, single_of, grouped, group_of, action_of};

use crate::names::name;
use lisa_words::Name;
use std::alloc::Global;
use verilog_expression_reader::{Measured, Missed, expression, past};
use verilog_places::{PlacedAction, PlacedExpr};
use verilog_text::{VKeyword, VSign, VToken, VTokenPart};

/// An expression of this depth at most, and the tokens behind it.
pub fn plain(
    alloc: Global,
    tokens: &[VToken],
    budget: u32,
) -> Result<(PlacedExpr, &[VToken]), Missed>
    ensures exact { Gives seen_expr result (expr budget (placed_toks tokens.now)) }
    ensures shorter { IfOk result (λ x. length x.1.now < length tokens.now) }
    ensures place { IfErr result (IsLeft (length tokens.now)) }
{
    let (Measured { tree, .. }, rest) = expression(alloc, tokens, budget)?;
    Ok((tree, rest))
}

// The value of an assignment and its semicolon.
#[tactic(auto, unfolding(crate::specs::Reading::value_of))]
fn value(alloc: Global, tokens: &[VToken], budget: u32) -> Result<(PlacedExpr, &[VToken]), Missed>
    ensures exact { Gives seen_expr result (value_of budget (placed_toks tokens.now)) }
    ensures shorter { IfOk result (λ x. length x.1.now < length tokens.now) }
    ensures place { IfErr result (IsLeft (length tokens.now)) }
{
    let (value, rest) = plain(alloc, tokens, budget.saturating_sub(1))?;
    let rest = past(rest, VSign::Semicolon)?;
    Ok((value, rest))
}

// An assignment of a `reg` of one word, behind its name.
#[tactic(auto, unfolding(crate::specs::Reading::set_of))]
fn set(
    alloc: Global,
    name: Name,
    tokens: &[VToken],
    budget: u32,
) -> Result<(PlacedAction, &[VToken]), Missed>
    ensures exact { Gives seen_action result (set_of name budget (placed_toks tokens.now)) }
    ensures shorter { IfOk result (λ x. length x.1.now ≤ length tokens.now) }
    ensures place { IfErr result (IsLeft (length tokens.now)) }
{
    let rest = past(tokens, VSign::LessEqual)?;
    let (value, rest) = value(alloc, rest, budget)?;
    Ok((PlacedAction::Set(name, None, value), rest))
}

// An assignment of a cell, behind its name and `[`.
#[tactic(auto, unfolding(crate::specs::Reading::put_of))]
fn put(
    alloc: Global,
    name: Name,
    tokens: &[VToken],
    budget: u32,
) -> Result<(PlacedAction, &[VToken]), Missed>
    ensures exact { Gives seen_action result (put_of name budget (placed_toks tokens.now)) }
    ensures shorter { IfOk result (λ x. length x.1.now ≤ length tokens.now) }
    ensures place { IfErr result (IsLeft (length tokens.now)) }
{
    let (index, rest) = plain(alloc, tokens, budget.saturating_sub(1))?;
    let rest = past(rest, VSign::CloseSquare)?;
    let rest = past(rest, VSign::LessEqual)?;
    let (value, rest) = value(alloc, rest, budget)?;
    Ok((PlacedAction::Set(name, Some(index), value), rest))
}

// An assignment, behind the name that it begins with.
#[tactic(auto, unfolding(crate::specs::Reading::assign_of))]
fn assign<'a>(
    alloc: Global,
    name: &Name,
    tokens: &'a [VToken],
    budget: u32,
) -> Result<(PlacedAction, &'a [VToken]), Missed>
    ensures exact { Gives seen_action result (assign_of name.now budget (placed_toks tokens.now)) }
    ensures shorter { IfOk result (λ x. length x.1.now ≤ length tokens.now) }
    ensures place { IfErr result (IsLeft (length tokens.now)) }
{
    let name = Name::from_bytes(alloc, name.as_bytes())?;
    let [
        VToken {
            part: VTokenPart::Sign(VSign::OpenSquare),
            ..
        },
        rest @ ..,
    ] = tokens
    else {
        return set(alloc, name, tokens, budget);
    };
    put(alloc, name, rest, budget)
}

// A test in parentheses.
#[tactic(auto, unfolding(crate::specs::Reading::test_of))]
fn test(alloc: Global, tokens: &[VToken], budget: u32) -> Result<(PlacedExpr, &[VToken]), Missed>
    ensures exact { Gives seen_expr result (test_of budget (placed_toks tokens.now)) }
    ensures shorter { IfOk result (λ x. length x.1.now < length tokens.now) }
    ensures place { IfErr result (IsLeft (length tokens.now)) }
{
    let rest = past(tokens, VSign::OpenRound)?;
    let (e, rest) = plain(alloc, rest, budget)?;
    Ok((e, past(rest, VSign::CloseRound)?))
}

// The tokens behind an `else`.
fn behind_else(tokens: &[VToken]) -> Option<&[VToken]>
    ensures value { seen_rest result ≡ behind_else (placed_toks tokens.now) }
    ensures shorter { IfSome result (λ x. length x.now < length tokens.now) }
{
    match tokens {
        [
            VToken {
                part: VTokenPart::Reserved(VKeyword::Else),
                ..
            },
            rest @ ..,
        ] => Some(rest),
        _ => None,
    }
}

// What a `begin` or `end` at the front makes of so many open blocks, and the tokens behind it.
fn group(blocks: usize, tokens: &[VToken]) -> Option<(usize, &[VToken])>
    requires { blocks + length tokens.now < 2 ^ 64 }
    ensures value { seen_group result ≡ group_of blocks (placed_toks tokens.now) }
    ensures shorter { IfSome result (λ x. (length x.1.now < length tokens.now) × (x.0 + length x.1.now ≤ blocks + length tokens.now)) }
{
    if blocks == 0 {
        return None;
    }
    match tokens {
        [
            VToken {
                part: VTokenPart::Reserved(VKeyword::Begin),
                ..
            },
            rest @ ..,
        ] => Some((blocks + 1, rest)),
        [
            VToken {
                part: VTokenPart::Reserved(VKeyword::End),
                ..
            },
            rest @ ..,
        ] => Some((blocks - 1, rest)),
        _ => None,
    }
}

// How many blocks are open behind the `begin`s and `end`s at the front, up to the end of all blocks, and the tokens there.
fn grouped(blocks: usize, tokens: &[VToken]) -> (usize, &[VToken])
    requires { blocks + length tokens.now < 2 ^ 64 }
    ensures value { (result.0, placed_toks result.1.now) ≡ grouped blocks (placed_toks tokens.now) }
    ensures shorter { (length result.1.now ≤ length tokens.now) × (result.0 + length result.1.now ≤ blocks + length tokens.now) }
{
    let mut left = blocks;
    let mut rest = tokens;
    'each: while let Some((more, after)) = group(left, rest) {
        left = more;
        rest = after;
    }
    (left, rest)
}

/// An action of this depth at most, which a block makes a list, and the tokens behind it. Recursion is as deep as the depth and the
/// brackets of an expression together.
#[cycle(actions)]
pub fn action(
    alloc: Global,
    tokens: &[VToken],
    budget: u32,
) -> Result<(Vec<PlacedAction>, &[VToken]), Missed>
    ensures exact { Gives seen_actions result (actions (action budget (placed_toks tokens.now))) }
    ensures shorter { IfOk result (λ x. length x.1.now < length tokens.now) }
    ensures place { IfErr result (IsLeft (length tokens.now)) }
{
    by_front(alloc, tokens, budget)
}

// An action, by whether it is a block.
#[cycle(actions)]
#[tactic(auto, unfolding(crate::specs::Reading::action_of))]
fn by_front(
    alloc: Global,
    tokens: &[VToken],
    budget: u32,
) -> Result<(Vec<PlacedAction>, &[VToken]), Missed>
    ensures exact { Gives seen_actions result (action_of actions budget (placed_toks tokens.now)) }
    ensures shorter { IfOk result (λ x. length x.1.now < length tokens.now) }
    ensures place { IfErr result (IsLeft (length tokens.now)) }
{
    let [
        VToken {
            part: VTokenPart::Reserved(VKeyword::Begin),
            ..
        },
        rest @ ..,
    ] = tokens
    else {
        return alone(alloc, tokens, budget);
    };
    block(alloc, rest, budget)
}

// An action that is no block, as a list.
#[cycle(actions)]
fn alone(
    alloc: Global,
    tokens: &[VToken],
    budget: u32,
) -> Result<(Vec<PlacedAction>, &[VToken]), Missed>
    ensures exact { Gives seen_actions result (single_of actions budget (placed_toks tokens.now)) }
    ensures shorter { IfOk result (λ x. length x.1.now < length tokens.now) }
    ensures place { IfErr result (IsLeft (length tokens.now)) }
{
    let (action, rest) = single(alloc, tokens, budget)?;
    let mut all = Vec::new(alloc);
    all.push(action)?;
    Ok((all, rest))
}

// An action that is no block, by its first token.
#[cycle(actions)]
#[tactic(auto, unfolding(crate::specs::Reading::single_of))]
fn single(
    alloc: Global,
    tokens: &[VToken],
    budget: u32,
) -> Result<(PlacedAction, &[VToken]), Missed>
    ensures exact { Gives seen_action result (single_of actions budget (placed_toks tokens.now)) }
    ensures shorter { IfOk result (λ x. length x.1.now < length tokens.now) }
    ensures place { IfErr result (IsLeft (length tokens.now)) }
{
    match tokens {
        [
            VToken {
                part: VTokenPart::Named(name),
                ..
            },
            rest @ ..,
        ] => assign(alloc, name, rest, budget),
        [
            VToken {
                part: VTokenPart::Reserved(VKeyword::If),
                ..
            },
            rest @ ..,
        ] => choice(alloc, rest, budget),
        _ => Err(Missed::At(tokens.len())),
    }
}

// A test and what it chooses, behind `if`.
#[cycle(actions)]
#[tactic(auto, unfolding(crate::specs::Reading::if_of))]
fn choice(
    alloc: Global,
    tokens: &[VToken],
    budget: u32,
) -> Result<(PlacedAction, &[VToken]), Missed>
    ensures exact { Gives seen_action result (if_of actions budget (placed_toks tokens.now)) }
    ensures shorter { IfOk result (λ x. length x.1.now ≤ length tokens.now) }
    ensures place { IfErr result (IsLeft (length tokens.now)) }
{
    let (test, rest) = test(alloc, tokens, budget.saturating_sub(1))?;
    let (this, rest) = action(alloc, rest, budget.saturating_sub(1))?;
    otherwise(alloc, test, this, rest, budget)
}

// The `else` of a test, if there is one.
#[cycle(actions)]
#[tactic(auto, unfolding(crate::specs::Reading::else_of))]
fn otherwise(
    alloc: Global,
    test: PlacedExpr,
    this: Vec<PlacedAction>,
    tokens: &[VToken],
    budget: u32,
) -> Result<(PlacedAction, &[VToken]), Missed>
    ensures exact { Gives seen_action result (else_of actions (placed_tree test) (placed_actions this.items) budget (placed_toks tokens.now)) }
    ensures shorter { IfOk result (λ x. length x.1.now ≤ length tokens.now) }
    ensures place { IfErr result (IsLeft (length tokens.now)) }
{
    let Some(rest) = behind_else(tokens) else {
        return Ok((PlacedAction::If(test, this, Vec::new(alloc)), tokens));
    };
    let (other, rest) = action(alloc, rest, budget.saturating_sub(1))?;
    Ok((PlacedAction::If(test, this, other), rest))
}

// The actions of a block, behind its `begin`, and the tokens behind its `end`. The blocks inside it are no deeper.
#[cycle(actions)]
fn block(
    alloc: Global,
    tokens: &[VToken],
    budget: u32,
) -> Result<(Vec<PlacedAction>, &[VToken]), Missed>
    ensures exact { Gives seen_actions result (actions (within 1 budget (placed_toks tokens.now))) }
    ensures shorter { IfOk result (λ x. length x.1.now ≤ length tokens.now) }
    ensures place { IfErr result (IsLeft (length tokens.now)) }
{
    let mut all = Vec::new(alloc);
    let (mut blocks, mut rest) = grouped(1, tokens);
    'each: while blocks > 0 {
        let (next, after) = single(alloc, rest, budget)?;
        all.push(next)?;
        (blocks, rest) = grouped(blocks, after);
    }
    Ok((all, rest))
}
