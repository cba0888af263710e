//! Going from operations to their alternatives ends.

ghost use Rattle.std.specs.Prelude.{ℕ, ◌<◌};
ghost use Rattle.lisa_tree.specs.Descriptions.{DescriptionTree};
ghost use Rattle.lisa_tree.specs.Paths.{Node, node_count};
ghost use Rattle.lisa_machine.specs.Verdicts.{IsAccepted};
ghost use Rattle.lisa_machine.specs.Ranks.{Ranks, OperationRanks, Descent};

/// In an accepted description there are ranks that fall wherever something leads, so each recursion down groups, instances and references
/// ends, and takes fewer steps than there are nodes.
pub fn operations_end()
    ensures nodes { (d : DescriptionTree) → IsAccepted d → Ranks d }
    ensures operations { (d : DescriptionTree) → IsAccepted d → OperationRanks d }
    ensures descents { (d : DescriptionTree) → IsAccepted d → (k : ℕ) (a : Node) → Descent d k a → k < node_count d }
{}
