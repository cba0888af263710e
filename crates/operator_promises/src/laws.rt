//! Operators are grouped by their levels.

ghost use Rattle.std.specs.Prelude.{◌≤◌, ℕ};
ghost use Rattle.lisa_tree.specs.Expressions.{ExprTree};
ghost use Rattle.lisa_tree.specs.Grammar.{Toks, SpellsExpr};
ghost use Rattle.verilog_text.specs.Trees.{VTree};
ghost use Rattle.verilog_text.specs.Tokens.{VToks};
ghost use Rattle.verilog_text.specs.Grammar.{SpellsVExpr};
ghost use Rattle.operator_promises.specs.Grouped.{IsGrouped, IsVGrouped};

/// In a behaviour, what tokens spell at a level of operators is what the levels that both languages share group them to, its operands being
/// unary expressions.
pub fn expressions_are_grouped()
    ensures grouped { (level : ℕ) (ts : Toks) (t : ExprTree) → 1 ≤ level → level ≤ 11 → SpellsExpr level ts t → IsGrouped level ts t }
    ensures spelled { (level : ℕ) (ts : Toks) (t : ExprTree) → IsGrouped level ts t → SpellsExpr level ts t }
{}

/// The same in a module of the Verilog subset.
pub fn verilog_expressions_are_grouped()
    ensures grouped { (level : ℕ) (ts : VToks) (t : VTree) → 1 ≤ level → level ≤ 11 → SpellsVExpr level ts t → IsVGrouped level ts t }
    ensures spelled { (level : ℕ) (ts : VToks) (t : VTree) → IsVGrouped level ts t → SpellsVExpr level ts t }
{}
