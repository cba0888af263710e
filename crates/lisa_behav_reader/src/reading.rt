//! Expressions and statements in the tokens of a description.

ghost use Rattle.std.specs.Prelude.{◌≡◌, ◌+◌, ◌≤◌, ℕ, IfOk, IfErr, length, drop};
ghost use Rattle.lisa_tree.specs.Expressions.{ExprTree, expr_tree};
ghost use Rattle.lisa_tree.specs.Statements.{StmtTrees, stmt_trees};
ghost use Rattle.lisa_tree.specs.Tokens.{toks};
ghost use Rattle.lisa_behav_reader.specs.Places.{closes, closes_block, IsExpression, AreStatements, IsRead, IsMiss};
ghost use Rattle.lisa_behav_reader.specs.Turned.{Turned};

use crate::misses::Missed;
use crate::stmts::{plain, statements};
use lisa_tree::{DescFault, Expr, Sign, Stmt, Token, TokenPart};
use std::alloc::Global;

// Whether the first token closes an expression.
fn closes(tokens: &[Token]) -> bool
    ensures { result ≡ closes (toks tokens.now) }
{
    matches!(
        tokens,
        [
            Token {
                part: TokenPart::Sign(
                    Sign::Semicolon | Sign::CloseRound | Sign::CloseSquare | Sign::CloseBrace
                ),
                ..
            },
            ..,
        ]
    )
}

// Whether the first token closes a list of statements.
fn closes_block(tokens: &[Token]) -> bool
    ensures { result ≡ closes_block (toks tokens.now) }
{
    matches!(
        tokens,
        [
            Token {
                part: TokenPart::Sign(Sign::CloseBrace),
                ..
            },
            ..,
        ]
    )
}

// The tokens behind the first ones.
fn behind(tokens: &[Token], count: usize) -> &[Token]
    requires { count ≤ length tokens.now }
    ensures value { toks result.now ≡ drop count (toks tokens.now) }
    ensures shorter { length result.now + count ≡ length tokens.now }
{
    &tokens[count..]
}

/// The fault that stands for what was missed: its place is that of a token, or 0.
pub fn fault(tokens: &[Token], missed: Missed) -> DescFault
    ensures kind { Turned missed result }
    ensures place { IsMiss tokens.now result }
{
    match missed {
        Missed::NoMemory => DescFault::NoMemory,
        Missed::At(left) => match tokens.get(tokens.len().saturating_sub(left)) {
            Some(token) => DescFault::NotADescription { at: token.at },
            None => DescFault::NotADescription { at: 0 },
        },
    }
}

/// The expression that the tokens from a place up to a closing token spell, and that token's place. Recursion is as deep as the
/// expression and its brackets.
pub fn read_expression(
    alloc: Global,
    tokens: &[Token],
    from: usize,
) -> Result<(Expr, usize), DescFault>
    requires { from ≤ length tokens.now }
    // What is read is spelled there.
    ensures found { IfOk result (λ x. IsExpression (toks tokens.now) from x.1 (expr_tree x.0)) }
    // What is spelled there is read, unless memory runs out; so a fault comes only where nothing is.
    ensures only { (to : ℕ) (t : ExprTree) → IsExpression (toks tokens.now) from to t → IsRead expr_tree t to result }
    ensures place { IfErr result (IsMiss tokens.now) }
{
    match plain(alloc, behind(tokens, from), 128) {
        Ok((tree, rest)) => {
            if closes(rest) {
                Ok((tree, tokens.len() - rest.len()))
            } else {
                Err(fault(tokens, Missed::At(rest.len())))
            }
        }
        Err(missed) => Err(fault(tokens, missed)),
    }
}

/// The statements that the tokens from a place up to a `}` spell, and that token's place. Recursion is as deep as the statements and
/// their brackets.
pub fn read_statements(
    alloc: Global,
    tokens: &[Token],
    from: usize,
) -> Result<(Vec<Stmt>, usize), DescFault>
    requires { from ≤ length tokens.now }
    // What is read is spelled there.
    ensures found { IfOk result (λ x. AreStatements (toks tokens.now) from x.1 (stmt_trees x.0.items)) }
    // What is spelled there is read, unless memory runs out; so a fault comes only where nothing is.
    ensures only { (to : ℕ) (all : StmtTrees) → AreStatements (toks tokens.now) from to all → IsRead (λ v. stmt_trees v.items) all to result }
    ensures place { IfErr result (IsMiss tokens.now) }
{
    match statements(alloc, behind(tokens, from), 128) {
        Ok((all, rest)) => {
            if closes_block(rest) {
                Ok((all, tokens.len() - rest.len()))
            } else {
                Err(fault(tokens, Missed::At(rest.len())))
            }
        }
        Err(missed) => Err(fault(tokens, missed)),
    }
}
