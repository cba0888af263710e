//! What holds of values.

ghost use Rattle.std.specs.Prelude.{ℕ};
ghost use Rattle.lisa_words.specs.declared.words.Kind.{Kind};
ghost use Rattle.lisa_tree.specs.Expressions.{ExprTree};
ghost use Rattle.typed_values.specs.Expressions.{Reader};
ghost use Rattle.typed_values.specs.Laws.{ValueFits, IsWholeLiteral};

/// The value of an expression fits its width, which is from 1 to 64, where all that it reads does.
pub fn values_fit()
    ensures { (reader : Reader) (e : ExprTree) → ValueFits reader e }
{}

/// A number that is all that is assigned is the same word at any width, whether it is taken as signed or as unsigned.
pub fn whole_literals()
    ensures { (kind : Kind) (v width : ℕ) → IsWholeLiteral kind v width }
{}
