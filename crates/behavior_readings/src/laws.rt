//! What reading a behaviour comes to. Each law is the contract of a function that does nothing.

ghost use Rattle.std.specs.Prelude.{◌≡◌, ◌≤◌, ◌++◌, ℕ, Some, true, false};
ghost use Rattle.lisa_tree.specs.Expressions.{ExprTree, expr_depth};
ghost use Rattle.lisa_tree.specs.Statements.{StmtTrees, stmts_depth};
ghost use Rattle.lisa_tree.specs.Grammar.{Toks, SpellsExpr, SpellsStmts};
ghost use Rattle.lisa_behav_reader.specs.Reading.{reads, whole};
ghost use Rattle.lisa_behav_reader.specs.StmtReading.{stmts, many, ends};
ghost use Rattle.behavior_readings.specs.Fronts.{IsFront, goes_on};

/// The expression that reading gives is spelled by the tokens that it takes. What tokens spell, of this depth at most, is the one that is
/// read, where the token behind it doesn't go on with it.
pub fn expressions_are_read()
    ensures found { (n : ℕ) (ts : Toks) (x : ExprTree × Toks) → reads (whole n ts) ≡ Some x → IsFront (SpellsExpr 0) expr_depth n ts x }
    ensures only { (n : ℕ) (ts rest : Toks) (t : ExprTree) → SpellsExpr 0 ts t → expr_depth t ≤ n → goes_on rest ≡ false → reads (whole n (ts ++ rest)) ≡ Some (t, rest) }
{}

/// The statements that reading gives are spelled by the tokens that it takes, up to a `}` or the end. What tokens spell, of this depth at
/// most, are the ones that are read there.
pub fn statements_are_read()
    ensures found { (n : ℕ) (ts : Toks) (x : StmtTrees × Toks) → stmts (many n ts) ≡ Some x → IsFront SpellsStmts stmts_depth n ts x }
    ensures ended { (n : ℕ) (ts : Toks) (x : StmtTrees × Toks) → stmts (many n ts) ≡ Some x → ends x.1 ≡ true }
    ensures only { (n : ℕ) (ts rest : Toks) (all : StmtTrees) → SpellsStmts ts all → stmts_depth all ≤ n → ends rest ≡ true → stmts (many n (ts ++ rest)) ≡ Some (all, rest) }
{}
