//! The stages that operations have.

ghost use Rattle.std.specs.Prelude.{◌≡◌, ◌<◌, ℕ, List, Some, true, length, slice_get};
ghost use Rattle.lisa_tree.specs.declared.tokens.Shape.{Shape};
ghost use Rattle.lisa_tree.specs.Descriptions.{Fields, OperationTree, DescriptionTree};
ghost use Rattle.lisa_tree.specs.Resources.{stages, is_pipeline};
ghost use Rattle.lisa_tree.specs.Operations.{operation_at, own_stage};
ghost use Rattle.lisa_machine.specs.Verdicts.{IsAccepted};
ghost use Rattle.use_promises.specs.Stages.{IsOwnStage};

/// In an accepted description the stage that an operation has of its own is one of the pipeline's, by the pipeline's name, and the fields of
/// boundaries are those of the pipeline.
pub fn stages_resolve()
    ensures heads { (d : DescriptionTree) → IsAccepted d → (o : ℕ) (operation : OperationTree) (pipe stage : List ℕ) → operation_at d o ≡ Some operation → operation.stage ≡ Some (pipe, stage) → IsOwnStage d o pipe stage }
    ensures low { (d : DescriptionTree) (o s : ℕ) → own_stage d o ≡ Some s → s < length (stages d) }
    ensures fields { (d : DescriptionTree) → IsAccepted d → (k : ℕ) (pipe : List ℕ) (all : List (Shape × List ℕ)) → slice_get d.resources k ≡ Some (Fields pipe all) → is_pipeline d pipe ≡ true }
{}
