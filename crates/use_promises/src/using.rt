//! What stands behind a declared name that is used.

ghost use Rattle.std.specs.Prelude.{◌≡◌, ℕ, List, [], Some, None, true, slice_get};
ghost use Rattle.lisa_tree.specs.declared.descriptions.CodingItem.{CodingItem};
ghost use Rattle.lisa_tree.specs.Expressions.{ExprTree};
ghost use Rattle.lisa_tree.specs.Descriptions.{Items, DescriptionTree};
ghost use Rattle.description_places.specs.declared.sites.Region.{Region};
ghost use Rattle.description_places.specs.declared.sites.Region.TheVariants as regions;
ghost use Rattle.description_places.specs.Scopes.{Scope, local_named};
ghost use Rattle.description_places.specs.Places.{at, Root, Operand, Shown, Reads, Writes, Calls, Starts};
ghost use Rattle.lisa_tree.specs.Operations.{sections_at, coding_in};
ghost use Rattle.lisa_tree.specs.Declarations.{Entry, entries, declared_at, alternatives_at};
ghost use Rattle.graph_paths.specs.Paths.{is_in};
ghost use Rattle.lisa_machine.specs.Verdicts.{IsAccepted};
ghost use Rattle.lisa_machine.specs.Freedom.{Stands};
ghost use Rattle.lisa_machine.specs.meant_declarations.Meant.{MayMean};
ghost use Rattle.use_promises.specs.Meant.{ChoosesFrom};
ghost use Rattle.use_promises.specs.Using.{IsCoded, IsCallable, ChildrenMayRun, IsChildEntry, IsStartable, IsOperand, IsRootGroup, IsShowable};

/// In an accepted description what is called is a declared name that may mean groups and instances alone, and each of their operations that
/// is no alias has neither a stage nor the root; one among several is decided by the coding, and the root's group isn't called in the root.
pub fn calls_resolve()
    ensures { (d : DescriptionTree) → IsAccepted d → (o : ℕ) (region : Region) (scope : Scope) (n : List ℕ) → Stands d (at o region scope (Calls n)) → IsCallable d o scope n }
{}

/// The same of each group and instance that a declared name may mean which is read or assigned. One that is assigned means no label.
pub fn values_run()
    ensures reads { (d : DescriptionTree) → IsAccepted d → (o i : ℕ) (region : Region) (scope : Scope) (n : List ℕ) → Stands d (at o region scope (Reads n)) → local_named n scope ≡ None → declared_at d o n ≡ Some i → ChildrenMayRun d i }
    ensures writes { (d : DescriptionTree) → IsAccepted d → (o i : ℕ) (region : Region) (scope : Scope) (n : List ℕ) → Stands d (at o region scope (Writes n)) → local_named n scope ≡ None → declared_at d o n ≡ Some i → ChildrenMayRun d i }
    ensures targets { (d : DescriptionTree) → IsAccepted d → (o i : ℕ) (region : Region) (scope : Scope) (n : List ℕ) → Stands d (at o region scope (Writes n)) → local_named n scope ≡ None → declared_at d o n ≡ Some i → (j : ℕ) (e : Entry) → MayMean d i j → slice_get (entries d) j ≡ Some e → IsChildEntry e }
{}

/// In an accepted description a group that is activated is decided by the coding where it has several operations; a child in a coding has
/// operations without stage and root; the root's group has none with a root; and the root doesn't show its group.
pub fn children_fit()
    ensures starts { (d : DescriptionTree) → IsAccepted d → (o : ℕ) (n : List ℕ) → Stands d (at o regions.Activation [] (Starts n)) → IsStartable d o n }
    ensures operands { (d : DescriptionTree) → IsAccepted d → (o : ℕ) (n : List ℕ) → Stands d (at o regions.Coding [] (Operand n)) → IsOperand d o n }
    ensures roots { (d : DescriptionTree) → IsAccepted d → (o : ℕ) (word : ExprTree) (n : List ℕ) → Stands d (at o regions.Coding [] (Root word n)) → IsRootGroup d o n }
    ensures shown { (d : DescriptionTree) → IsAccepted d → (o : ℕ) (n : List ℕ) → Stands d (at o regions.Syntax [] (Shown n)) → IsShowable d o n }
{}

/// In an accepted description an operation with a coding that isn't the root's is declared only by operations in whose coding the declared
/// name stands.
pub fn codings_are_declared()
    ensures { (d : DescriptionTree) → IsAccepted d → (i c o : ℕ) (e : Entry) (all : List CodingItem) → slice_get (entries d) i ≡ Some e → ChoosesFrom e c → is_in o (alternatives_at d c) ≡ true → coding_in (sections_at d o) ≡ Some (Items all) → IsCoded d e }
{}
