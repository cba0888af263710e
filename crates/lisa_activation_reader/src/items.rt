//! Items of an activation.

ghost use Rattle.std.specs.Prelude.{◌≡◌, ◌<◌, ◌≤◌, IfOk, IfErr, length};
ghost use Rattle.lisa_tree.specs.Expressions.{expr_tree};
ghost use Rattle.lisa_tree.specs.Activations.{Choose, ChooseElse, act_tree, act_trees};
ghost use Rattle.lisa_tree.specs.Tokens.{toks};
ghost use Rattle.lisa_behav_reader.specs.Gives.{Gives, IsLeft};
ghost use Rattle.lisa_behav_reader.specs.Places.{closes_block};
ghost use Rattle.lisa_behav_reader.specs.StmtGives.{seen_expr};
ghost use Rattle.lisa_behav_reader.specs.StmtReading.{expr, test_of};
ghost use Rattle.lisa_activation_reader.specs.Gives.{seen_act, seen_acts};
ghost use Rattle.lisa_activation_reader.specs.Reading.{acts, one, has_comma, items_of, activation_of, braced_of, else_of, if_of, one_of, further_of};

use lisa_behav_reader::{Measured, Missed, expression, past};
use lisa_tree::{Act, Expr, Keyword, Sign, Token, TokenPart};
use lisa_words::Name;
use std::alloc::Global;

// Whether a `}` stands in front.
fn ends(tokens: &[Token]) -> bool
    ensures { result ≡ closes_block (toks tokens.now) }
{
    matches!(
        tokens,
        [
            Token {
                part: TokenPart::Sign(Sign::CloseBrace),
                ..
            },
            ..,
        ]
    )
}

// Whether a comma stands in front.
fn has_comma(tokens: &[Token]) -> bool
    ensures { result ≡ has_comma (toks tokens.now) }
{
    matches!(
        tokens,
        [
            Token {
                part: TokenPart::Sign(Sign::Comma),
                ..
            },
            ..,
        ]
    )
}

// An expression without its depth.
fn plain(alloc: Global, tokens: &[Token], budget: u32) -> Result<(Expr, &[Token]), Missed>
    ensures exact { Gives seen_expr result (expr budget (toks tokens.now)) }
    ensures shorter { IfOk result (λ x. length x.1.now < length tokens.now) }
    ensures place { IfErr result (IsLeft (length tokens.now)) }
{
    let (Measured { tree, .. }, rest) = expression(alloc, tokens, budget)?;
    Ok((tree, rest))
}

// `( e )`
#[tactic(auto, unfolding(lisa_behav_reader::specs::StmtReading::test_of))]
fn test(alloc: Global, tokens: &[Token], budget: u32) -> Result<(Expr, &[Token]), Missed>
    ensures exact { Gives seen_expr result (test_of budget (toks tokens.now)) }
    ensures shorter { IfOk result (λ x. length x.1.now < length tokens.now) }
    ensures place { IfErr result (IsLeft (length tokens.now)) }
{
    let rest = past(tokens, Sign::OpenRound)?;
    let (e, rest) = plain(alloc, rest, budget)?;
    Ok((e, past(rest, Sign::CloseRound)?))
}

// An item of this depth at most, and the tokens behind it.
#[cycle(activations)]
fn item(alloc: Global, tokens: &[Token], budget: u32) -> Result<(Act, &[Token]), Missed>
    ensures exact { Gives seen_act result (acts (one budget (toks tokens.now))) }
    ensures shorter { IfOk result (λ x. length x.1.now < length tokens.now) }
    ensures place { IfErr result (IsLeft (length tokens.now)) }
{
    by_front(alloc, tokens, budget)
}

// An item, by its first token.
#[cycle(activations)]
#[tactic(auto, unfolding(crate::specs::Reading::one_of))]
fn by_front(alloc: Global, tokens: &[Token], budget: u32) -> Result<(Act, &[Token]), Missed>
    ensures exact { Gives seen_act result (one_of acts budget (toks tokens.now)) }
    ensures shorter { IfOk result (λ x. length x.1.now < length tokens.now) }
    ensures place { IfErr result (IsLeft (length tokens.now)) }
{
    if budget == 0 {
        return Err(Missed::At(tokens.len()));
    }
    let [first, rest @ ..] = tokens else {
        return Err(Missed::At(0));
    };
    match &first.part {
        TokenPart::Named(name) => Ok((Act::Start(Name::from_bytes(alloc, name.as_bytes())?), rest)),
        TokenPart::Reserved(Keyword::If) => choice(alloc, rest, budget),
        _ => Err(Missed::At(tokens.len())),
    }
}

// A test and the items that it chooses, behind `if`.
#[cycle(activations)]
#[tactic(auto, unfolding(crate::specs::Reading::if_of))]
fn choice(alloc: Global, tokens: &[Token], budget: u32) -> Result<(Act, &[Token]), Missed>
    ensures exact { Gives seen_act result (if_of acts budget (toks tokens.now)) }
    ensures shorter { IfOk result (λ x. length x.1.now ≤ length tokens.now) }
    ensures place { IfErr result (IsLeft (length tokens.now)) }
{
    let (e, rest) = test(alloc, tokens, budget.saturating_sub(1))?;
    let (chosen, rest) = braced(alloc, rest, budget.saturating_sub(1))?;
    otherwise(alloc, e, chosen, rest, budget)
}

// A test without `else`.
fn chosen_alone(e: Expr, chosen: Vec<Act>) -> Act
    ensures { act_tree result ≡ Choose (expr_tree e) (act_trees chosen.items) }
{
    Act::Choose(e, chosen, None)
}

// A test with `else`.
fn chosen_or(e: Expr, chosen: Vec<Act>, others: Vec<Act>) -> Act
    ensures { act_tree result ≡ ChooseElse (expr_tree e) (act_trees chosen.items) (act_trees others.items) }
{
    Act::Choose(e, chosen, Some(others))
}

// The `else` of a test, if there is one.
#[cycle(activations)]
#[tactic(auto, unfolding(crate::specs::Reading::else_of))]
fn otherwise(
    alloc: Global,
    e: Expr,
    chosen: Vec<Act>,
    tokens: &[Token],
    budget: u32,
) -> Result<(Act, &[Token]), Missed>
    ensures exact { Gives seen_act result (else_of acts (expr_tree e) (act_trees chosen.items) budget (toks tokens.now)) }
    ensures shorter { IfOk result (λ x. length x.1.now ≤ length tokens.now) }
    ensures place { IfErr result (IsLeft (length tokens.now)) }
{
    let [
        Token {
            part: TokenPart::Reserved(Keyword::Else),
            ..
        },
        rest @ ..,
    ] = tokens
    else {
        return Ok((chosen_alone(e, chosen), tokens));
    };
    let (others, rest) = braced(alloc, rest, budget.saturating_sub(1))?;
    Ok((chosen_or(e, chosen, others), rest))
}

// `{ items }`
#[cycle(activations)]
#[tactic(auto, unfolding(crate::specs::Reading::braced_of))]
fn braced(alloc: Global, tokens: &[Token], budget: u32) -> Result<(Vec<Act>, &[Token]), Missed>
    ensures exact { Gives seen_acts result (braced_of acts budget (toks tokens.now)) }
    ensures shorter { IfOk result (λ x. length x.1.now < length tokens.now) }
    ensures place { IfErr result (IsLeft (length tokens.now)) }
{
    let rest = past(tokens, Sign::OpenBrace)?;
    let (all, rest) = activation(alloc, rest, budget)?;
    Ok((all, past(rest, Sign::CloseBrace)?))
}

/// The items of an activation up to a `}`, each of this depth at most, and the tokens behind them. Recursion is as deep as the
/// depth and the brackets of the tests together.
#[cycle(activations)]
#[tactic(auto, unfolding(crate::specs::Reading::all_of))]
pub fn activation(
    alloc: Global,
    tokens: &[Token],
    budget: u32,
) -> Result<(Vec<Act>, &[Token]), Missed>
    ensures exact { Gives seen_acts result (activation_of budget (toks tokens.now)) }
    ensures shorter { IfOk result (λ x. length x.1.now ≤ length tokens.now) }
    ensures place { IfErr result (IsLeft (length tokens.now)) }
{
    if ends(tokens) {
        return Ok((Vec::new(alloc), tokens));
    }
    items(alloc, tokens, budget)
}

// One item or more, with commas between them.
#[cycle(activations)]
fn items(alloc: Global, tokens: &[Token], budget: u32) -> Result<(Vec<Act>, &[Token]), Missed>
    ensures exact { Gives seen_acts result (items_of acts budget (toks tokens.now)) }
    ensures shorter { IfOk result (λ x. length x.1.now < length tokens.now) }
    ensures place { IfErr result (IsLeft (length tokens.now)) }
{
    let (first, mut rest) = item(alloc, tokens, budget)?;
    let mut all = Vec::new(alloc);
    all.push(first)?;
    'each: while has_comma(rest) {
        let (next, after) = further(alloc, rest, budget)?;
        all.push(next)?;
        rest = after;
    }
    Ok((all, rest))
}

// A comma and an item.
#[cycle(activations)]
#[tactic(auto, unfolding(crate::specs::Reading::further_of))]
fn further(alloc: Global, tokens: &[Token], budget: u32) -> Result<(Act, &[Token]), Missed>
    ensures exact { Gives seen_act result (further_of acts budget (toks tokens.now)) }
    ensures shorter { IfOk result (λ x. length x.1.now < length tokens.now) }
    ensures place { IfErr result (IsLeft (length tokens.now)) }
{
    let rest = past(tokens, Sign::Comma)?;
    item(alloc, rest, budget)
}
