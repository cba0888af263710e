//! What follows where no node reaches itself.

ghost use Rattle.std.specs.Prelude.{◌<◌, ℕ, List, length};
ghost use Rattle.std.specs.Global.{Vec};
ghost use Rattle.graph_paths.specs.Paths.{AreNodes, IsAcyclic, Long};

/// A path has fewer edges than there are nodes, so a recursion along the edges goes no deeper than their number.
pub fn paths_are_short()
    ensures { (next : List (Vec ℕ)) → AreNodes next → IsAcyclic next → (k a : ℕ) → Long next k a → a < length next → k < length next }
{}
