//! What runs where, and how long.

ghost use Rattle.std.specs.Prelude.{◌≡◌, ℕ, List, Some, codes};
ghost use Rattle.lisa_tree.specs.Statements.{HeadTree};
ghost use Rattle.lisa_tree.specs.Descriptions.{OperationTree, DescriptionTree};
ghost use Rattle.description_places.specs.declared.sites.Region.{Region};
ghost use Rattle.description_places.specs.Scopes.{Scope};
ghost use Rattle.description_places.specs.Places.{at, Stalls, Flushes, Counts, Loops};
ghost use Rattle.lisa_tree.specs.Operations.{operation_at};
ghost use Rattle.lisa_machine.specs.Verdicts.{IsAccepted};
ghost use Rattle.lisa_machine.specs.Freedom.{Stands};
ghost use Rattle.lisa_machine.specs.Running.{GoesForward, FitsControl, FitsLoop, FitsMain, FitsReset};

/// In an accepted description what runs in a stage activates nothing of an earlier one, and what runs outside of stages enters the pipeline
/// by its first stage.
pub fn activations_go_forward()
    ensures { (d : DescriptionTree) → IsAccepted d → GoesForward d }
{}

/// In an accepted description each stall and each flush names a stage of the pipeline, and stands in `main` or in an operation of a later
/// stage.
pub fn controls_fit()
    ensures stalls { (d : DescriptionTree) → IsAccepted d → (o : ℕ) (region : Region) (scope : Scope) (pipe stage : List ℕ) → Stands d (at o region scope (Stalls pipe stage)) → FitsControl d o pipe stage }
    ensures flushes { (d : DescriptionTree) → IsAccepted d → (o : ℕ) (region : Region) (scope : Scope) (pipe stage : List ℕ) → Stands d (at o region scope (Flushes pipe stage)) → FitsControl d o pipe stage }
{}

/// In an accepted description there is no `while`, and each `for` has bounds and at most 256 turns.
pub fn loops_end()
    ensures whiles { (d : DescriptionTree) → IsAccepted d → (o : ℕ) (region : Region) (scope : Scope) → Stands d (at o region scope Loops) → ⊥ }
    ensures fors { (d : DescriptionTree) → IsAccepted d → (o : ℕ) (region : Region) (scope : Scope) (head : HeadTree) → Stands d (at o region scope (Counts head)) → FitsLoop head }
{}

/// An accepted description has a `main`, without stage and coding.
pub fn main_fits()
    ensures { (d : DescriptionTree) → IsAccepted d → FitsMain d }
{}

/// In an accepted description `reset` has no stage, and only behaviours.
pub fn resets_fit()
    ensures { (d : DescriptionTree) → IsAccepted d → (o : ℕ) (operation : OperationTree) → operation_at d o ≡ Some operation → operation.name ≡ codes "reset" → FitsReset operation }
{}
