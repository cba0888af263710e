//! Expressions and statements in tokens that open at most 64 brackets at a time.

ghost use Rattle.std.specs.Prelude.{◌≤◌, ℕ, IfOk, IfErr, OnOk, length};
ghost use Rattle.lisa_tree.specs.Brackets.{IsFlat};
ghost use Rattle.lisa_tree.specs.Expressions.{ExprTree, expr_tree};
ghost use Rattle.lisa_tree.specs.Statements.{StmtTrees, stmt_trees};
ghost use Rattle.lisa_tree.specs.Tokens.{toks};
ghost use Rattle.lisa_behav_reader.specs.Places.{IsExpression, AreStatements, IsRead};
ghost use Rattle.behavior_readings.specs.Refusals.{IsDeep, IsRefused};

use lisa_lexer::too_deep;
use lisa_tree::{DescFault, Expr, Stmt, Token};
use std::alloc::Global;

// Refuses tokens at which more than 64 brackets are open.
fn refuse_deep(tokens: &[Token]) -> Result<(), DescFault>
    ensures flat { OnOk result (IsFlat (toks tokens.now)) }
    ensures deep { IfErr result (IsDeep tokens.now) }
{
    match too_deep(tokens) {
        Some(i) => Err(DescFault::TooDeep { at: tokens[i].at }),
        None => Ok(()),
    }
}

/// The expression that the tokens from a place up to a closing token spell, and that token's place. Where more than 64 brackets are open
/// at some token, the first such is the fault, and nothing is read: so recursion goes no deeper than an expression of depth 128 with 64
/// brackets round its parts.
pub fn read_expression(
    alloc: Global,
    tokens: &[Token],
    from: usize,
) -> Result<(Expr, usize), DescFault>
    requires { from ≤ length tokens.now }
    // What is read is spelled there, by tokens that open few brackets.
    ensures found { IfOk result (λ x. IsExpression (toks tokens.now) from x.1 (expr_tree x.0)) }
    ensures flat { OnOk result (IsFlat (toks tokens.now)) }
    // What is spelled there is read where they open few, unless memory runs out; so another fault comes only where nothing is.
    ensures only { (to : ℕ) (t : ExprTree) → IsFlat (toks tokens.now) → IsExpression (toks tokens.now) from to t → IsRead expr_tree t to result }
    ensures fault { IfErr result (IsRefused tokens.now) }
{
    refuse_deep(tokens)?;
    lisa_behav_reader::read_expression(alloc, tokens, from)
}

/// The statements that the tokens from a place up to a `}` spell, and that token's place. Where more than 64 brackets are open at some
/// token, the first such is the fault, and nothing is read: so recursion goes no deeper than statements of depth 128 with 64 brackets
/// round their parts.
pub fn read_statements(
    alloc: Global,
    tokens: &[Token],
    from: usize,
) -> Result<(Vec<Stmt>, usize), DescFault>
    requires { from ≤ length tokens.now }
    // What is read is spelled there, by tokens that open few brackets.
    ensures found { IfOk result (λ x. AreStatements (toks tokens.now) from x.1 (stmt_trees x.0.items)) }
    ensures flat { OnOk result (IsFlat (toks tokens.now)) }
    // What is spelled there is read where they open few, unless memory runs out; so another fault comes only where nothing is.
    ensures only { (to : ℕ) (all : StmtTrees) → IsFlat (toks tokens.now) → AreStatements (toks tokens.now) from to all → IsRead (λ v. stmt_trees v.items) all to result }
    ensures fault { IfErr result (IsRefused tokens.now) }
{
    refuse_deep(tokens)?;
    lisa_behav_reader::read_statements(alloc, tokens, from)
}
