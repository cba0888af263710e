//! What holds of every description.

ghost use Rattle.std.specs.Prelude.{ℕ};
ghost use Rattle.std.specs.List.Sorted.{IsStrictlyIncreasing};
ghost use Rattle.lisa_tree.specs.Descriptions.{DescriptionTree};
ghost use Rattle.lisa_tree.specs.Declarations.{above};

/// The operations above one stand in source order, so that each of them stands there once.
pub fn above_rises()
    ensures { (d : DescriptionTree) → (o : ℕ) → IsStrictlyIncreasing (above d o) }
{}
