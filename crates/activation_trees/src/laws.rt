//! What occurrences are to each other, and that unfolding ends.

ghost use Rattle.std.specs.Prelude.{◌≡◌, ◌<◌, ℕ, None, Some, slice_get};
ghost use Rattle.lisa_tree.specs.Descriptions.{DescriptionTree};
ghost use Rattle.lisa_tree.specs.Paths.{node_count};
ghost use Rattle.lisa_machine.specs.description_graph.Circles.{IsFirstCircularOperation};
ghost use Rattle.activation_trees.specs.declared.parts.Occurrence.{Occurrence};
ghost use Rattle.stage_checks.specs.Running.{RunsIn};
ghost use Rattle.activation_trees.specs.Unfolding.{children, unfolded, whole, occurrences};
ghost use Rattle.activation_trees.specs.Activators.{HasActivator};
ghost use Rattle.activation_trees.specs.Starting.{Activated, activated};
ghost use Rattle.activation_trees.specs.Places.{children_of, place, IsBelow, HasName};

/// Where no operation reaches itself, an occurrence unfolds to no more in further levels than in as many as there are nodes, and one.
pub fn further_levels_unfold_nothing()
    ensures { (d : DescriptionTree) → IsFirstCircularOperation d None → (levels next : ℕ) (x : Occurrence) → node_count d < levels → unfolded levels d next x ≡ whole d next x }
{}

/// Each occurrence but the first, which is that of `main`, stands behind its activator's, and is one of what that one's operation activates.
/// So from each a path of parents leads to `main`, by numbers that fall.
pub fn activators_come_first()
    ensures { (d : DescriptionTree) (k : ℕ) (x : Occurrence) → slice_get (occurrences d) k ≡ Some x → HasActivator d k x x.parent }
{}

/// What occurs in a stage, or in none, runs there by some path of activations from `main`. So what is promised of such paths holds of
/// occurrences.
pub fn occurrences_run()
    ensures { (d : DescriptionTree) (k : ℕ) (x : Occurrence) → slice_get (occurrences d) k ≡ Some x → RunsIn d x.operation x.stage }
{}

/// The occurrences that one occurrence activates are, in order, what its operation activates. So each stands there at its place among them.
pub fn children_stand_in_order()
    ensures all { (d : DescriptionTree) → IsFirstCircularOperation d None → (k : ℕ) (x : Occurrence) → slice_get (occurrences d) k ≡ Some x → children_of k (occurrences d) ≡ children d k x }
    ensures each { (d : DescriptionTree) → IsFirstCircularOperation d None → (k p : ℕ) (x a : Occurrence) → IsBelow d k x p a → slice_get (children d p a) (place (occurrences d) p k) ≡ Some x }
{}

/// Each that an operation activates is an alternative of the name at its place among those by which the operation activates.
pub fn names_tell_what_is_activated()
    ensures { (d : DescriptionTree) (o i : ℕ) (a : Activated) → slice_get (activated d o) i ≡ Some a → HasName d o i a }
{}
