//! What the sections of operations name.

ghost use Rattle.std.specs.Prelude.{◌≡◌, ℕ, List, Some, true};
ghost use Rattle.std.specs.List.{AllByRecursion};
ghost use Rattle.lisa_tree.specs.declared.descriptions.SyntaxItem.{SyntaxItem};
ghost use Rattle.lisa_tree.specs.Activations.{ActTrees};
ghost use Rattle.lisa_tree.specs.Descriptions.{CodingTree, OperationTree, DescriptionTree};
ghost use Rattle.lisa_tree.specs.Operations.{operation_at, sections_at, coding_in, syntax_in, activation_in};
ghost use Rattle.stage_checks.specs.Running.{acts_names};
ghost use Rattle.lisa_machine.specs.Verdicts.{IsAccepted};
ghost use Rattle.lisa_machine.specs.Declaring.{IsChild};
ghost use Rattle.lisa_machine.specs.Codings.{FitsCoding, FitsSyntax, FitsAlias};

/// In an accepted description each item of a coding is bits, the field of a label of its operation, with a width from 1 to 64 and free
/// digits alone, or a group or instance of its operation. A root's group is a group of its operation, and its word is a register that is no
/// array, or a field of the boundary before its own stage.
pub fn codings_fit()
    ensures { (d : DescriptionTree) → IsAccepted d → (o : ℕ) (part : CodingTree) → coding_in (sections_at d o) ≡ Some part → FitsCoding d o part }
{}

/// In an accepted description each number of a syntax is that of a label of its operation that has a field in its coding, and each child
/// that is shown is a group or instance of its operation.
pub fn syntaxes_fit()
    ensures { (d : DescriptionTree) → IsAccepted d → (o : ℕ) (all : List SyntaxItem) → syntax_in (sections_at d o) ≡ Some all → FitsSyntax d o all }
{}

/// In an accepted description each item of an activation is a group or instance of its operation.
pub fn activations_fit()
    ensures { (d : DescriptionTree) → IsAccepted d → (o : ℕ) (all : ActTrees) → activation_in (sections_at d o) ≡ Some all → AllByRecursion (IsChild d o) (acts_names all) }
{}

/// In an accepted description an alias has a coding that isn't the root's, and has neither a stage, references, a behaviour, an expression
/// nor an activation.
pub fn aliases_fit()
    ensures { (d : DescriptionTree) → IsAccepted d → (o : ℕ) (operation : OperationTree) → operation_at d o ≡ Some operation → operation.alias ≡ true → FitsAlias operation }
{}
