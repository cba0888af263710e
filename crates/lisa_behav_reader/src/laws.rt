//! What the grammar of behaviours comes to.

ghost use Rattle.std.specs.Prelude.{◌≡◌};
ghost use Rattle.lisa_tree.specs.Expressions.{ExprTree};
ghost use Rattle.lisa_tree.specs.Statements.{StmtTrees};
ghost use Rattle.lisa_tree.specs.Grammar.{Toks, SpellsExpr, SpellsStmts};

/// Tokens spell one expression at most.
pub fn one_expression()
    ensures { (ts : Toks) (t u : ExprTree) → SpellsExpr 0 ts t → SpellsExpr 0 ts u → t ≡ u }
{}

/// Tokens spell one list of statements at most.
pub fn one_behavior()
    ensures { (ts : Toks) (all others : StmtTrees) → SpellsStmts ts all → SpellsStmts ts others → all ≡ others }
{}
