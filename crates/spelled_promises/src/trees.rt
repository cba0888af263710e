//! What the trees of a description that is spelled are made of.

ghost use Rattle.std.specs.Prelude.{◌≡◌, ℕ, List, Some, slice_get};
ghost use Rattle.std.specs.List.{AllByRecursion};
ghost use Rattle.lisa_tree.specs.declared.descriptions.SyntaxItem.{SyntaxItem};
ghost use Rattle.lisa_tree.specs.Expressions.{ExprTree};
ghost use Rattle.lisa_tree.specs.Statements.{StmtTrees};
ghost use Rattle.lisa_tree.specs.Activations.{ActTrees};
ghost use Rattle.lisa_tree.specs.Descriptions.{ResourceTree, CodingTree, OperationTree, DescriptionTree};
ghost use Rattle.lisa_tree.specs.Texts.{SpellsText};
ghost use Rattle.lisa_tree.specs.Operations.{operation_at, sections_at, declares_in, coding_in, syntax_in, behavior_in, expression_in, activation_in};
ghost use Rattle.spelled_promises.specs.Trees.{IsWellFormed, IsWellFormedExpr, IsWellFormedStmts, IsWellFormedActs, IsWellFormedResource, IsWellFormedDeclare, IsWellFormedCoding, IsWellFormedSyntax, IsWellFormedOperation};

/// In a description that is spelled each name has from 1 to 64 bytes, a letter or `_` first, and is no reserved word and no type; each
/// number is below 2 ^ 64; each pattern has from 1 to 64 digits, or one digit that stands from 1 to 65,535 times; each string is printable;
/// no `OUT.f` is read; and what is assigned is a name, an element or an `OUT.f`.
pub fn spelled_is_well_formed()
    ensures { (bytes : List ℕ) (d : DescriptionTree) → SpellsText bytes d → IsWellFormed d }
{}

/// The same of each resource.
pub fn spelled_resources_are_well_formed()
    ensures { (bytes : List ℕ) (d : DescriptionTree) → SpellsText bytes d → (k : ℕ) (r : ResourceTree) → slice_get d.resources k ≡ Some r → IsWellFormedResource r }
{}

/// The same of each operation.
pub fn spelled_operations_are_well_formed()
    ensures { (bytes : List ℕ) (d : DescriptionTree) → SpellsText bytes d → (o : ℕ) (operation : OperationTree) → operation_at d o ≡ Some operation → IsWellFormedOperation operation }
{}

/// The same of what each operation has of each kind of section.
pub fn spelled_sections_are_well_formed()
    ensures declares { (bytes : List ℕ) (d : DescriptionTree) → SpellsText bytes d → (o : ℕ) → AllByRecursion IsWellFormedDeclare (declares_in (sections_at d o)) }
    ensures coding { (bytes : List ℕ) (d : DescriptionTree) → SpellsText bytes d → (o : ℕ) (part : CodingTree) → coding_in (sections_at d o) ≡ Some part → IsWellFormedCoding part }
    ensures syntax { (bytes : List ℕ) (d : DescriptionTree) → SpellsText bytes d → (o : ℕ) (all : List SyntaxItem) → syntax_in (sections_at d o) ≡ Some all → IsWellFormedSyntax all }
    ensures behavior { (bytes : List ℕ) (d : DescriptionTree) → SpellsText bytes d → (o : ℕ) (all : StmtTrees) → behavior_in (sections_at d o) ≡ Some all → IsWellFormedStmts all }
    ensures expression { (bytes : List ℕ) (d : DescriptionTree) → SpellsText bytes d → (o : ℕ) (e : ExprTree) → expression_in (sections_at d o) ≡ Some e → IsWellFormedExpr e }
    ensures activation { (bytes : List ℕ) (d : DescriptionTree) → SpellsText bytes d → (o : ℕ) (all : ActTrees) → activation_in (sections_at d o) ≡ Some all → IsWellFormedActs all }
{}
