//! What joining operands one by one comes to.

ghost use Rattle.std.specs.Prelude.{◌≡◌, ◌≤◌, ℕ, List, [], Some};
ghost use Rattle.lisa_words.specs.declared.binary.Operator.{Operator};
ghost use Rattle.operator_levels.specs.Chains.{items, IsGrouped, run};

use crate::operands::Joined;

/// Pushing operands one by one and finishing with the last one gives the tree that groups them by levels, and gives it wherever it
/// isn't deeper than the limit. So operands are grouped in one way.
pub fn grouped_by_levels<T: Joined>()
    ensures found { (limit : ℕ) (t x : T.Plain) (rest : List (Operator × T.Plain)) → run T.two T.deep limit [] t rest ≡ Some x → IsGrouped T.two (items t rest) x }
    ensures only { (limit : ℕ) (t x : T.Plain) (rest : List (Operator × T.Plain)) → IsGrouped T.two (items t rest) x → T.deep x ≤ limit → run T.two T.deep limit [] t rest ≡ Some x }
{}
