//! What holds of the sizes of every description.

ghost use Rattle.std.specs.Prelude.{◌≡◌, ◌<◌, ◌↔◌, ℕ, None, Option, length};
ghost use Rattle.lisa_tree.specs.Descriptions.{DescriptionTree};
ghost use Rattle.activation_trees.specs.description_graph.Circles.{IsFirstCircularOperation};
ghost use Rattle.activation_trees.specs.lisa_machine.Machines.{IsResetShort};
ghost use Rattle.description_sizes.specs.Sizes.{first_too_many};
ghost use Rattle.description_sizes.specs.Laws.{AreWithinLimits, AreCounted};

/// Nothing is too much exactly where each count is within its limit.
pub fn sizes_are_within_limits()
    ensures { (d : DescriptionTree) (width : Option ℕ) (forms : ℕ) → (first_too_many d width forms ≡ None) ↔ AreWithinLimits d width forms }
{}

/// Where nothing is too much and no operation reaches itself, `reset` has few enough statements and nodes to be evaluated.
pub fn reset_is_short()
    ensures { (d : DescriptionTree) (width : Option ℕ) (forms : ℕ) → IsFirstCircularOperation d None → first_too_many d width forms ≡ None → IsResetShort d }
{}

/// Where no operation reaches itself, the texts of each operation have counts.
pub fn texts_are_counted()
    ensures { (d : DescriptionTree) → IsFirstCircularOperation d None → (o : ℕ) → o < length d.operations → AreCounted d o }
{}
