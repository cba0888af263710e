//! Which names are different, and that each is found where it stands.

ghost use Rattle.std.specs.Prelude.{◌≡◌, ℕ, List, Option, Some, None, slice_get};
ghost use Rattle.lisa_tree.specs.declared.tokens.Shape.{Shape};
ghost use Rattle.lisa_tree.specs.Expressions.{ExprTree};
ghost use Rattle.lisa_tree.specs.Statements.{HeadTree};
ghost use Rattle.lisa_tree.specs.Descriptions.{Pipeline, Fields, ResourceTree, SectionTree, OperationTree, DescriptionTree};
ghost use Rattle.description_places.specs.declared.sites.Region.{Region};
ghost use Rattle.description_places.specs.Scopes.{Scope};
ghost use Rattle.description_places.specs.Places.{at, region_of, Local, Counts};
ghost use Rattle.lisa_tree.specs.Resources.{resource_at, stages};
ghost use Rattle.lisa_tree.specs.Operations.{number_of, operation_at, sections_at};
ghost use Rattle.lisa_tree.specs.Declarations.{Entry, Choice, entries, choices, declared_at};
ghost use Rattle.lisa_machine.specs.Verdicts.{IsAccepted};
ghost use Rattle.lisa_machine.specs.Freedom.{Stands};
ghost use Rattle.lisa_machine.specs.Distinctness.{AreDistinct, name_of, resource_names, operation_names, declared_names, field_names, IsFresh};

/// In an accepted description no two resources share a name, no two operations, no two declared names of one operation, no two stages, no
/// two fields and no two alternatives of one choice.
pub fn names_are_distinct()
    ensures resources { (d : DescriptionTree) → IsAccepted d → AreDistinct (resource_names d) }
    ensures operations { (d : DescriptionTree) → IsAccepted d → AreDistinct (operation_names d) }
    ensures declared { (d : DescriptionTree) → IsAccepted d → (o : ℕ) → AreDistinct (declared_names d o) }
    ensures stages { (d : DescriptionTree) → IsAccepted d → AreDistinct (stages d) }
    ensures fields { (d : DescriptionTree) → IsAccepted d → AreDistinct (field_names d) }
    ensures alternatives { (d : DescriptionTree) → IsAccepted d → (c : ℕ) (x : Choice) → slice_get (choices d) c ≡ Some x → AreDistinct x.alternatives }
{}

/// In an accepted description a look-up by the name of a resource, an operation or a declared name finds that one.
pub fn names_are_found()
    ensures resources { (d : DescriptionTree) → IsAccepted d → (k : ℕ) (r : ResourceTree) (n : List ℕ) → slice_get d.resources k ≡ Some r → name_of r ≡ Some n → resource_at d n ≡ Some k }
    ensures operations { (d : DescriptionTree) → IsAccepted d → (o : ℕ) (operation : OperationTree) → operation_at d o ≡ Some operation → number_of d operation.name ≡ Some o }
    ensures declared { (d : DescriptionTree) → IsAccepted d → (i : ℕ) (e : Entry) → slice_get (entries d) i ≡ Some e → declared_at d e.operation e.name ≡ Some i }
{}

/// In an accepted description no operation and no declared name has the name of a resource, and a local has a name that nothing else in
/// scope has.
pub fn names_are_apart()
    ensures operations { (d : DescriptionTree) → IsAccepted d → (o : ℕ) (operation : OperationTree) → operation_at d o ≡ Some operation → resource_at d operation.name ≡ None }
    ensures declared { (d : DescriptionTree) → IsAccepted d → (i : ℕ) (e : Entry) → slice_get (entries d) i ≡ Some e → resource_at d e.name ≡ None }
    ensures locals { (d : DescriptionTree) → IsAccepted d → (o : ℕ) (region : Region) (scope : Scope) (shape : Shape) (n : List ℕ) (value : Option ExprTree) → Stands d (at o region scope (Local shape n value)) → IsFresh d o scope n }
    ensures counters { (d : DescriptionTree) → IsAccepted d → (o : ℕ) (region : Region) (scope : Scope) (head : HeadTree) (shape : Shape) → head.shape ≡ Some shape → Stands d (at o region scope (Counts head)) → IsFresh d o scope head.name }
{}

/// An accepted description has at most one PIPELINE and one PIPELINE_REGISTER, and each operation at most one section of a kind.
pub fn sections_are_single()
    ensures sections { (d : DescriptionTree) → IsAccepted d → (o j k : ℕ) (s t : SectionTree) → slice_get (sections_at d o) j ≡ Some s → slice_get (sections_at d o) k ≡ Some t → region_of s ≡ region_of t → j ≡ k }
    ensures pipelines { (d : DescriptionTree) → IsAccepted d → (j k : ℕ) (n m : List ℕ) (xs ys : List (List ℕ)) → slice_get d.resources j ≡ Some (Pipeline n xs) → slice_get d.resources k ≡ Some (Pipeline m ys) → j ≡ k }
    ensures fields { (d : DescriptionTree) → IsAccepted d → (j k : ℕ) (n m : List ℕ) (xs ys : List (Shape × List ℕ)) → slice_get d.resources j ≡ Some (Fields n xs) → slice_get d.resources k ≡ Some (Fields m ys) → j ≡ k }
{}
