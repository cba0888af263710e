//! Loops, and what `reset` has.

ghost use Rattle.std.specs.Prelude.{◌≡◌, ℕ, codes};
ghost use Rattle.lisa_tree.specs.Statements.{HeadTree};
ghost use Rattle.lisa_tree.specs.Descriptions.{DescriptionTree};
ghost use Rattle.description_places.specs.declared.sites.Region.{Region};
ghost use Rattle.description_places.specs.Scopes.{Scope};
ghost use Rattle.description_places.specs.Places.{Place, at, Counts};
ghost use Rattle.lisa_tree.specs.Operations.{name_at};
ghost use Rattle.lisa_machine.specs.Verdicts.{IsAccepted};
ghost use Rattle.lisa_machine.specs.Freedom.{Stands};
ghost use Rattle.use_promises.specs.Counting.{HoldsValues, TurnsBelow};
ghost use Rattle.use_promises.specs.Resetting.{FitsInReset};

/// In an accepted description the head of a loop has three literals, its step is at least 1, and its variable has a type with each value that
/// the loop gives it. The loop has a turn for each number from the first on, by the step, that is below the limit, and at most 256 turns.
pub fn counters_hold()
    ensures values { (d : DescriptionTree) → IsAccepted d → (o : ℕ) (region : Region) (scope : Scope) (head : HeadTree) → Stands d (at o region scope (Counts head)) → HoldsValues head }
    ensures turns { (d : DescriptionTree) → IsAccepted d → (o : ℕ) (region : Region) (scope : Scope) (head : HeadTree) → Stands d (at o region scope (Counts head)) → TurnsBelow head }
{}

/// In an accepted description `reset` reads and assigns locals and registers that are no arrays, and does nothing else.
pub fn resets_hold()
    ensures { (d : DescriptionTree) → IsAccepted d → (o : ℕ) (region : Region) (scope : Scope) (place : Place) → name_at d o ≡ codes "reset" → Stands d (at o region scope place) → FitsInReset d o scope place }
{}
