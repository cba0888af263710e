//! What runs ends, and where it runs in place.

ghost use Rattle.std.specs.Prelude.{◌≡◌, ℕ, List, None, Some, codes};
ghost use Rattle.lisa_tree.specs.Descriptions.{DescriptionTree};
ghost use Rattle.lisa_tree.specs.Operations.{name_at};
ghost use Rattle.lisa_tree.specs.Declarations.{declared_at};
ghost use Rattle.description_places.specs.declared.sites.Region.{Region};
ghost use Rattle.description_places.specs.Places.{Place, at, Calls, Flushes, Reads, Stalls, Writes};
ghost use Rattle.description_places.specs.Scopes.{Scope, local_named};
ghost use Rattle.lisa_machine.specs.Verdicts.{IsAccepted};
ghost use Rattle.lisa_machine.specs.Freedom.{Stands};
ghost use Rattle.use_promises.specs.Using.{RunsInPlace};
ghost use Rattle.lisa_meaning.specs.Scenes.{Scene, running};
ghost use Rattle.meaning_promises.specs.Running.{Runs, HasChild};
ghost use Rattle.scene_promises.specs.Ends.{RunRanks, IsOfOwnStage, ChildIsInPlace};

/// In an accepted description there are ranks that fall from each operation to all that its declared names may choose, through references too.
/// So calls and values of children end.
pub fn runs_end()
    ensures { (d : DescriptionTree) → IsAccepted d → RunRanks d }
{}

/// In an accepted description what runs in place names no boundary beside an own stage and doesn't ask whether the word is an instruction. It
/// stalls and flushes nothing, unless it is `main`.
pub fn what_runs_in_place_has_no_stage()
    ensures places { (d : DescriptionTree) → IsAccepted d → (o : ℕ) → RunsInPlace d o → (region : Region) (scope : Scope) (place : Place) → Stands d (at o region scope place) → IsOfOwnStage place → ⊥ }
    ensures stalls { (d : DescriptionTree) → IsAccepted d → (o : ℕ) → RunsInPlace d o → (region : Region) (scope : Scope) (pipe stage : List ℕ) → Stands d (at o region scope (Stalls pipe stage)) → name_at d o ≡ codes "main" }
    ensures flushes { (d : DescriptionTree) → IsAccepted d → (o : ℕ) → RunsInPlace d o → (region : Region) (scope : Scope) (pipe stage : List ℕ) → Stands d (at o region scope (Flushes pipe stage)) → name_at d o ≡ codes "main" }
{}

/// In an accepted description a child that is called, read or assigned where something runs does so in place, and isn't `main`.
pub fn children_run_in_place()
    ensures calls { (d : DescriptionTree) → IsAccepted d → (scene : Scene) → Runs d scene → (region : Region) (scope : Scope) (n : List ℕ) → Stands d (at (running scene) region scope (Calls n)) → (child : HasChild d scene n) → ChildIsInPlace d scene n child }
    ensures reads { (d : DescriptionTree) → IsAccepted d → (scene : Scene) → Runs d scene → (region : Region) (scope : Scope) (n : List ℕ) (i : ℕ) → Stands d (at (running scene) region scope (Reads n)) → local_named n scope ≡ None → declared_at d (running scene) n ≡ Some i → (child : HasChild d scene n) → ChildIsInPlace d scene n child }
    ensures writes { (d : DescriptionTree) → IsAccepted d → (scene : Scene) → Runs d scene → (region : Region) (scope : Scope) (n : List ℕ) (i : ℕ) → Stands d (at (running scene) region scope (Writes n)) → local_named n scope ≡ None → declared_at d (running scene) n ≡ Some i → (child : HasChild d scene n) → ChildIsInPlace d scene n child }
{}
