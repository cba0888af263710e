//! Statements from tokens.

ghost use Rattle.std.specs.Prelude.{◌≡◌, ◌-◌, ◌<◌, ◌≤◌, Some, None, IfOk, IfErr, length};
ghost use Rattle.lisa_tree.specs.Expressions.{expr_tree, Element, Output};
ghost use Rattle.lisa_tree.specs.Expressions as expressions;
ghost use Rattle.lisa_tree.specs.Statements.{stmt_tree};
ghost use Rattle.lisa_tree.specs.Tokens.{toks};
ghost use Rattle.lisa_behav_reader.specs.Gives.{Gives, IsLeft};
ghost use Rattle.lisa_behav_reader.specs.StmtGives.{seen_expr, seen_stmt, seen_stmts, seen_head, seen_set};
ghost use Rattle.lisa_behav_reader.specs.StmtReading.{stmts, one, many, expr, ends, assign_of, element_of, call_end_of, pipe_call, stage_call, stage_of, control_of, method_of, child_of, named_of, output_of, initial_of, value_of, local_of, test_of, set_of, head_from, head_of, block_of, else_of, if_of, while_of, for_of, one_of};

use crate::depths::Measured;
use crate::expressions::expression;
use crate::misses::Missed;
use crate::signs::{name, past};
use lisa_tree::{Expr, ForHead, Keyword, Shape, Sign, Stmt, Token, TokenPart};
use lisa_words::Name;
use std::alloc::Global;

// An expression without its depth.
pub(crate) fn plain(
    alloc: Global,
    tokens: &[Token],
    budget: u32,
) -> Result<(Expr, &[Token]), Missed>
    ensures exact { Gives seen_expr result (expr budget (toks tokens.now)) }
    ensures shorter { IfOk result (λ x. length x.1.now < length tokens.now) }
    ensures place { IfErr result (IsLeft (length tokens.now)) }
{
    let (Measured { tree, .. }, rest) = expression(alloc, tokens, budget)?;
    Ok((tree, rest))
}

// Whether no statement follows.
fn ends(tokens: &[Token]) -> bool
    ensures { result ≡ ends (toks tokens.now) }
{
    match tokens {
        [] => true,
        [
            Token {
                part: TokenPart::Sign(Sign::CloseBrace),
                ..
            },
            ..
        ] => true,
        _ => false,
    }
}

// The tokens behind `( ) ;`.
#[tactic(auto, unfolding(crate::specs::StmtReading::call_end_of))]
fn call_end(tokens: &[Token]) -> Result<&[Token], Missed>
    ensures exact { Gives (λ x. toks x.now) result (call_end_of (toks tokens.now)) }
    ensures shorter { IfOk result (λ x. length x.now < length tokens.now) }
    ensures place { IfErr result (IsLeft (length tokens.now)) }
{
    let rest = past(tokens, Sign::OpenRound)?;
    let rest = past(rest, Sign::CloseRound)?;
    past(rest, Sign::Semicolon)
}

// An assignment, behind its place.
#[tactic(auto, unfolding(crate::specs::StmtReading::assign_of))]
fn assign(
    alloc: Global,
    place: Expr,
    tokens: &[Token],
    budget: u32,
) -> Result<(Stmt, &[Token]), Missed>
    ensures exact { Gives seen_stmt result (assign_of (expr_tree place) budget (toks tokens.now)) }
    ensures shorter { IfOk result (λ x. length x.1.now ≤ length tokens.now) }
    ensures place { IfErr result (IsLeft (length tokens.now)) }
{
    let rest = past(tokens, Sign::Equal)?;
    let (value, rest) = plain(alloc, rest, budget.saturating_sub(1))?;
    let rest = past(rest, Sign::Semicolon)?;
    Ok((Stmt::Assign(place, value), rest))
}

// An assignment of an element, behind its name and `[`.
#[tactic(auto, unfolding(crate::specs::StmtReading::element_of))]
fn element(
    alloc: Global,
    name: Name,
    tokens: &[Token],
    budget: u32,
) -> Result<(Stmt, &[Token]), Missed>
    ensures exact { Gives seen_stmt result (element_of name budget (toks tokens.now)) }
    ensures shorter { IfOk result (λ x. length x.1.now ≤ length tokens.now) }
    ensures place { IfErr result (IsLeft (length tokens.now)) }
{
    let (index, rest) = plain(alloc, tokens, budget.saturating_sub(2))?;
    let rest = past(rest, Sign::CloseSquare)?;
    let place = Expr::Element(name, Box::new(alloc, index)?);
    assign(alloc, place, rest, budget)
}

// The call of a pipeline by its word, in front of these tokens.
fn pipe_call<'a>(
    pipe: Name,
    word: &Name,
    tokens: &'a [Token],
) -> Result<(Stmt, &'a [Token]), Missed>
    ensures exact { Gives seen_stmt result (pipe_call pipe word.now (toks tokens.now)) }
    ensures shorter { IfOk result (λ x. length x.1.now ≤ length tokens.now) }
    ensures place { IfErr result (IsLeft (length tokens.now)) }
{
    if word.as_bytes() == b"execute".as_slice() {
        Ok((Stmt::Execute(pipe), tokens))
    } else if word.as_bytes() == b"shift".as_slice() {
        Ok((Stmt::Shift(pipe), tokens))
    } else {
        Err(Missed::At(tokens.len()))
    }
}

// The call of a stage by its word, in front of these tokens.
fn stage_call<'a>(
    pipe: Name,
    stage: Name,
    word: &Name,
    tokens: &'a [Token],
) -> Result<(Stmt, &'a [Token]), Missed>
    ensures exact { Gives seen_stmt result (stage_call pipe stage word.now (toks tokens.now)) }
    ensures shorter { IfOk result (λ x. length x.1.now ≤ length tokens.now) }
    ensures place { IfErr result (IsLeft (length tokens.now)) }
{
    if word.as_bytes() == b"stall".as_slice() {
        Ok((Stmt::Stall(pipe, stage), tokens))
    } else if word.as_bytes() == b"flush".as_slice() {
        Ok((Stmt::Flush(pipe, stage), tokens))
    } else {
        Err(Missed::At(tokens.len()))
    }
}

// The call of a stage, behind `pipe . stage .`.
#[tactic(auto, unfolding(crate::specs::StmtReading::stage_of))]
fn stage(
    alloc: Global,
    pipe: Name,
    stage: Name,
    tokens: &[Token],
) -> Result<(Stmt, &[Token]), Missed>
    ensures exact { Gives seen_stmt result (stage_of pipe stage (toks tokens.now)) }
    ensures shorter { IfOk result (λ x. length x.1.now ≤ length tokens.now) }
    ensures place { IfErr result (IsLeft (length tokens.now)) }
{
    let (word, rest) = name(alloc, tokens)?;
    let rest = call_end(rest)?;
    stage_call(pipe, stage, &word, rest)
}

// The call of a pipeline or a stage, behind `pipe . name`.
#[tactic(auto, unfolding(crate::specs::StmtReading::control_of))]
fn control(
    alloc: Global,
    pipe: Name,
    second: Name,
    tokens: &[Token],
) -> Result<(Stmt, &[Token]), Missed>
    ensures exact { Gives seen_stmt result (control_of pipe second (toks tokens.now)) }
    ensures shorter { IfOk result (λ x. length x.1.now ≤ length tokens.now) }
    ensures place { IfErr result (IsLeft (length tokens.now)) }
{
    let [
        Token {
            part: TokenPart::Sign(Sign::Dot),
            ..
        },
        rest @ ..,
    ] = tokens
    else {
        let rest = call_end(tokens)?;
        return pipe_call(pipe, &second, rest);
    };
    stage(alloc, pipe, second, rest)
}

// The call of a pipeline or a stage, behind `pipe .`.
#[tactic(auto, unfolding(crate::specs::StmtReading::method_of))]
fn method(alloc: Global, pipe: Name, tokens: &[Token]) -> Result<(Stmt, &[Token]), Missed>
    ensures exact { Gives seen_stmt result (method_of pipe (toks tokens.now)) }
    ensures shorter { IfOk result (λ x. length x.1.now ≤ length tokens.now) }
    ensures place { IfErr result (IsLeft (length tokens.now)) }
{
    let (second, rest) = name(alloc, tokens)?;
    control(alloc, pipe, second, rest)
}

// The call of a child, behind its name and `(`.
#[tactic(auto, unfolding(crate::specs::StmtReading::child_of))]
fn child_call(called: Name, tokens: &[Token]) -> Result<(Stmt, &[Token]), Missed>
    ensures exact { Gives seen_stmt result (child_of called (toks tokens.now)) }
    ensures shorter { IfOk result (λ x. length x.1.now ≤ length tokens.now) }
    ensures place { IfErr result (IsLeft (length tokens.now)) }
{
    let rest = past(tokens, Sign::CloseRound)?;
    let rest = past(rest, Sign::Semicolon)?;
    Ok((Stmt::Call(called), rest))
}

// An assignment or a call, behind the name that it begins with.
#[tactic(auto, unfolding(crate::specs::StmtReading::named_of))]
fn named<'a>(
    alloc: Global,
    first: &Name,
    tokens: &'a [Token],
    budget: u32,
) -> Result<(Stmt, &'a [Token]), Missed>
    ensures exact { Gives seen_stmt result (named_of first.now budget (toks tokens.now)) }
    ensures shorter { IfOk result (λ x. length x.1.now ≤ length tokens.now) }
    ensures place { IfErr result (IsLeft (length tokens.now)) }
{
    let first = Name::from_bytes(alloc, first.as_bytes())?;
    match tokens {
        [
            Token {
                part: TokenPart::Sign(Sign::OpenSquare),
                ..
            },
            rest @ ..,
        ] => element(alloc, first, rest, budget),
        [
            Token {
                part: TokenPart::Sign(Sign::Dot),
                ..
            },
            rest @ ..,
        ] => method(alloc, first, rest),
        [
            Token {
                part: TokenPart::Sign(Sign::OpenRound),
                ..
            },
            rest @ ..,
        ] => child_call(first, rest),
        _ => assign(alloc, Expr::Named(first), tokens, budget),
    }
}

// An assignment of a field, behind OUT.
#[tactic(auto, unfolding(crate::specs::StmtReading::output_of))]
fn output(alloc: Global, tokens: &[Token], budget: u32) -> Result<(Stmt, &[Token]), Missed>
    ensures exact { Gives seen_stmt result (output_of budget (toks tokens.now)) }
    ensures shorter { IfOk result (λ x. length x.1.now ≤ length tokens.now) }
    ensures place { IfErr result (IsLeft (length tokens.now)) }
{
    let rest = past(tokens, Sign::Dot)?;
    let (field, rest) = name(alloc, rest)?;
    assign(alloc, Expr::Output(field), rest, budget)
}

// The value of a local, behind its name.
#[tactic(auto, unfolding(crate::specs::StmtReading::initial_of))]
fn initial(
    alloc: Global,
    shape: Shape,
    local: Name,
    tokens: &[Token],
    budget: u32,
) -> Result<(Stmt, &[Token]), Missed>
    ensures exact { Gives seen_stmt result (initial_of shape local budget (toks tokens.now)) }
    ensures shorter { IfOk result (λ x. length x.1.now ≤ length tokens.now) }
    ensures place { IfErr result (IsLeft (length tokens.now)) }
{
    let rest = past(tokens, Sign::Equal)?;
    let (value, rest) = plain(alloc, rest, budget.saturating_sub(1))?;
    let rest = past(rest, Sign::Semicolon)?;
    Ok((Stmt::Local(shape, local, Some(value)), rest))
}

// A local, behind its type.
#[tactic(auto, unfolding(crate::specs::StmtReading::local_of))]
fn local(
    alloc: Global,
    shape: Shape,
    tokens: &[Token],
    budget: u32,
) -> Result<(Stmt, &[Token]), Missed>
    ensures exact { Gives seen_stmt result (local_of shape budget (toks tokens.now)) }
    ensures shorter { IfOk result (λ x. length x.1.now ≤ length tokens.now) }
    ensures place { IfErr result (IsLeft (length tokens.now)) }
{
    let (local, rest) = name(alloc, tokens)?;
    let [
        Token {
            part: TokenPart::Sign(Sign::Semicolon),
            ..
        },
        after @ ..,
    ] = rest
    else {
        return initial(alloc, shape, local, rest, budget);
    };
    Ok((Stmt::Local(shape, local, None), after))
}

// A test in parentheses.
#[tactic(auto, unfolding(crate::specs::StmtReading::test_of))]
fn test(alloc: Global, tokens: &[Token], budget: u32) -> Result<(Expr, &[Token]), Missed>
    ensures exact { Gives seen_expr result (test_of budget (toks tokens.now)) }
    ensures shorter { IfOk result (λ x. length x.1.now < length tokens.now) }
    ensures place { IfErr result (IsLeft (length tokens.now)) }
{
    let rest = past(tokens, Sign::OpenRound)?;
    let (e, rest) = plain(alloc, rest, budget)?;
    Ok((e, past(rest, Sign::CloseRound)?))
}

// `name = e` in the head of a loop.
#[tactic(auto, unfolding(crate::specs::StmtReading::set_of))]
fn set(alloc: Global, tokens: &[Token], budget: u32) -> Result<(Name, Expr, &[Token]), Missed>
    ensures exact { Gives seen_set result (set_of budget (toks tokens.now)) }
    ensures shorter { IfOk result (λ x. length x.2.now < length tokens.now) }
    ensures place { IfErr result (IsLeft (length tokens.now)) }
{
    let (variable, rest) = name(alloc, tokens)?;
    let rest = past(rest, Sign::Equal)?;
    let (value, rest) = plain(alloc, rest, budget)?;
    Ok((variable, value, rest))
}

// The head of a loop, behind the type of its variable.
#[tactic(auto, unfolding(crate::specs::StmtReading::head_from))]
fn head_from(
    alloc: Global,
    shape: Option<Shape>,
    tokens: &[Token],
    budget: u32,
) -> Result<(ForHead, &[Token]), Missed>
    ensures exact { Gives seen_head result (head_from shape budget (toks tokens.now)) }
    ensures shorter { IfOk result (λ x. length x.1.now < length tokens.now) }
    ensures place { IfErr result (IsLeft (length tokens.now)) }
{
    let (name, first, rest) = set(alloc, tokens, budget)?;
    let rest = past(rest, Sign::Semicolon)?;
    let (test, rest) = plain(alloc, rest, budget)?;
    let rest = past(rest, Sign::Semicolon)?;
    let (next, step, rest) = set(alloc, rest, budget)?;
    let head = ForHead {
        shape,
        name,
        first,
        test,
        next,
        step,
    };
    Ok((head, rest))
}

// The head of a loop.
#[tactic(auto, unfolding(crate::specs::StmtReading::head_of))]
fn head(alloc: Global, tokens: &[Token], budget: u32) -> Result<(ForHead, &[Token]), Missed>
    ensures exact { Gives seen_head result (head_of budget (toks tokens.now)) }
    ensures shorter { IfOk result (λ x. length x.1.now < length tokens.now) }
    ensures place { IfErr result (IsLeft (length tokens.now)) }
{
    let [
        Token {
            part: TokenPart::TypeWord(shape),
            ..
        },
        rest @ ..,
    ] = tokens
    else {
        return head_from(alloc, None, tokens, budget);
    };
    head_from(alloc, Some(*shape), rest, budget)
}

// A statement of this depth at most, and the tokens behind it. Recursion is as deep as the depth and the brackets together.
#[cycle(statements)]
fn statement(alloc: Global, tokens: &[Token], budget: u32) -> Result<(Stmt, &[Token]), Missed>
    ensures exact { Gives seen_stmt result (stmts (one budget (toks tokens.now))) }
    ensures shorter { IfOk result (λ x. length x.1.now < length tokens.now) }
    ensures place { IfErr result (IsLeft (length tokens.now)) }
{
    by_front(alloc, tokens, budget)
}

// A statement, by its first token.
#[cycle(statements)]
#[tactic(auto, unfolding(crate::specs::StmtReading::one_of))]
fn by_front(alloc: Global, tokens: &[Token], budget: u32) -> Result<(Stmt, &[Token]), Missed>
    ensures exact { Gives seen_stmt result (one_of stmts budget (toks tokens.now)) }
    ensures shorter { IfOk result (λ x. length x.1.now < length tokens.now) }
    ensures place { IfErr result (IsLeft (length tokens.now)) }
{
    if budget == 0 {
        return Err(Missed::At(tokens.len()));
    }
    let [first, rest @ ..] = tokens else {
        return Err(Missed::At(0));
    };
    match &first.part {
        TokenPart::Sign(Sign::Semicolon) => Ok((Stmt::Empty, rest)),
        TokenPart::Sign(Sign::OpenBrace) => block(alloc, rest, budget),
        TokenPart::TypeWord(shape) => local(alloc, *shape, rest, budget),
        TokenPart::Named(first) => named(alloc, first, rest, budget),
        TokenPart::Reserved(Keyword::Out) => output(alloc, rest, budget),
        TokenPart::Reserved(Keyword::If) => choice(alloc, rest, budget),
        TokenPart::Reserved(Keyword::While) => repeated(alloc, rest, budget),
        TokenPart::Reserved(Keyword::For) => counted(alloc, rest, budget),
        _ => Err(Missed::At(tokens.len())),
    }
}

// The statements of a block, behind its `{`.
#[cycle(statements)]
#[tactic(auto, unfolding(crate::specs::StmtReading::block_of))]
fn block(alloc: Global, tokens: &[Token], budget: u32) -> Result<(Stmt, &[Token]), Missed>
    ensures exact { Gives seen_stmt result (block_of stmts budget (toks tokens.now)) }
    ensures shorter { IfOk result (λ x. length x.1.now ≤ length tokens.now) }
    ensures place { IfErr result (IsLeft (length tokens.now)) }
{
    let (body, rest) = statements(alloc, tokens, budget.saturating_sub(1))?;
    let rest = past(rest, Sign::CloseBrace)?;
    Ok((Stmt::Block(body), rest))
}

// A test and what it chooses, behind `if`.
#[cycle(statements)]
#[tactic(auto, unfolding(crate::specs::StmtReading::if_of))]
fn choice(alloc: Global, tokens: &[Token], budget: u32) -> Result<(Stmt, &[Token]), Missed>
    ensures exact { Gives seen_stmt result (if_of stmts budget (toks tokens.now)) }
    ensures shorter { IfOk result (λ x. length x.1.now ≤ length tokens.now) }
    ensures place { IfErr result (IsLeft (length tokens.now)) }
{
    let (e, rest) = test(alloc, tokens, budget.saturating_sub(1))?;
    let (chosen, rest) = statement(alloc, rest, budget.saturating_sub(1))?;
    otherwise(alloc, e, chosen, rest, budget)
}

// The `else` of a test, if there is one.
#[cycle(statements)]
#[tactic(auto, unfolding(crate::specs::StmtReading::else_of))]
fn otherwise(
    alloc: Global,
    e: Expr,
    chosen: Stmt,
    tokens: &[Token],
    budget: u32,
) -> Result<(Stmt, &[Token]), Missed>
    ensures exact { Gives seen_stmt result (else_of stmts (expr_tree e) (stmt_tree chosen) budget (toks tokens.now)) }
    ensures shorter { IfOk result (λ x. length x.1.now ≤ length tokens.now) }
    ensures place { IfErr result (IsLeft (length tokens.now)) }
{
    let chosen = Box::new(alloc, chosen)?;
    let [
        Token {
            part: TokenPart::Reserved(Keyword::Else),
            ..
        },
        rest @ ..,
    ] = tokens
    else {
        return Ok((Stmt::If(e, chosen, None), tokens));
    };
    let (other, rest) = statement(alloc, rest, budget.saturating_sub(1))?;
    Ok((Stmt::If(e, chosen, Some(Box::new(alloc, other)?)), rest))
}

// A loop, behind `while`.
#[cycle(statements)]
#[tactic(auto, unfolding(crate::specs::StmtReading::while_of))]
fn repeated(alloc: Global, tokens: &[Token], budget: u32) -> Result<(Stmt, &[Token]), Missed>
    ensures exact { Gives seen_stmt result (while_of stmts budget (toks tokens.now)) }
    ensures shorter { IfOk result (λ x. length x.1.now ≤ length tokens.now) }
    ensures place { IfErr result (IsLeft (length tokens.now)) }
{
    let (e, rest) = test(alloc, tokens, budget.saturating_sub(1))?;
    let (body, rest) = statement(alloc, rest, budget.saturating_sub(1))?;
    Ok((Stmt::While(e, Box::new(alloc, body)?), rest))
}

// A loop, behind `for`.
#[cycle(statements)]
#[tactic(auto, unfolding(crate::specs::StmtReading::for_of))]
fn counted(alloc: Global, tokens: &[Token], budget: u32) -> Result<(Stmt, &[Token]), Missed>
    ensures exact { Gives seen_stmt result (for_of stmts budget (toks tokens.now)) }
    ensures shorter { IfOk result (λ x. length x.1.now ≤ length tokens.now) }
    ensures place { IfErr result (IsLeft (length tokens.now)) }
{
    let rest = past(tokens, Sign::OpenRound)?;
    let (head, rest) = head(alloc, rest, budget.saturating_sub(1))?;
    let rest = past(rest, Sign::CloseRound)?;
    let (body, rest) = statement(alloc, rest, budget.saturating_sub(1))?;
    let head = Box::new(alloc, head)?;
    Ok((Stmt::For(head, Box::new(alloc, body)?), rest))
}

/// The statements up to a `}` or the end, each of this depth at most, and the tokens behind them. Recursion is as deep as the depth
/// and the brackets together.
#[cycle(statements)]
pub fn statements(
    alloc: Global,
    tokens: &[Token],
    budget: u32,
) -> Result<(Vec<Stmt>, &[Token]), Missed>
    ensures exact { Gives seen_stmts result (stmts (many budget (toks tokens.now))) }
    ensures shorter { IfOk result (λ x. length x.1.now ≤ length tokens.now) }
    ensures place { IfErr result (IsLeft (length tokens.now)) }
{
    let mut all = Vec::new(alloc);
    let mut rest = tokens;
    'each: while !ends(rest) {
        let (next, after) = statement(alloc, rest, budget)?;
        all.push(next)?;
        rest = after;
    }
    Ok((all, rest))
}
