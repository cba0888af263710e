//! Going down: from a description to its operations, their sections, and the parts of those.

ghost use Rattle.std.specs.Prelude.{◌≡◌, ◌⊎◌, ◌↔◌, ◌+◌, ◌++◌, ◌∷◌, ℕ, List, [], Option, Some, slice_get};
ghost use Rattle.lisa_tree.specs.declared.faults.DescFault.{DescFault};
ghost use Rattle.lisa_tree.specs.declared.descriptions.SyntaxItem.{SyntaxItem};
ghost use Rattle.lisa_tree.specs.Expressions.{ExprTree};
ghost use Rattle.lisa_tree.specs.Statements.{StmtTrees};
ghost use Rattle.lisa_tree.specs.Activations.{ActTrees};
ghost use Rattle.lisa_tree.specs.Descriptions.{ResourceTree, CodingTree, SectionTree, OperationTree, DescriptionTree};
ghost use Rattle.description_places.specs.declared.sites.Region.TheVariants as regions;
ghost use Rattle.description_places.specs.Places.{At, Condition, Resource, Head, Section, at, region_of, section_inner, operation_places, declares_places, coding_places, parts_places, all_places, uses, acts_places};
ghost use Rattle.lisa_tree.specs.Operations.{operation_at, sections_at, declares_in, coding_in, syntax_in, behavior_in, expression_in, activation_in};
ghost use Rattle.lisa_machine.specs.Freedom.{AreFree, IsFree, IsFreeAt, IsAmong, Stands, AllStand};

/// Where a condition is broken nowhere in a description, it is broken at no place that stands in it. So a proof that goes down a tree
/// carries that the tree's places stand, once for all conditions.
pub fn all_that_stand_are_free()
    ensures places { (breaks : Condition DescFault) (d : DescriptionTree) → IsFree breaks d → (all : List At) → AllStand d all → AreFree breaks all }
    ensures place { (breaks : Condition DescFault) (d : DescriptionTree) → IsFree breaks d → (a : At) → Stands d a → IsFreeAt breaks a }
{}

/// A condition is broken at none of some places exactly where it isn't broken at any one of them, and a list of places is as free as its
/// parts are.
pub fn parts_are_free()
    ensures each { (breaks : Condition DescFault) (all : List At) → AreFree breaks all ↔ ((a : At) → IsAmong a all → IsFreeAt breaks a) }
    ensures both { (breaks : Condition DescFault) (xs ys : List At) → AreFree breaks (xs ++ ys) ↔ (AreFree breaks xs × AreFree breaks ys) }
    ensures first { (breaks : Condition DescFault) (a : At) (rest : List At) → AreFree breaks (a ∷ rest) ↔ (IsFreeAt breaks a × AreFree breaks rest) }
{}

/// All of a list's places stand in a description exactly where those of its parts do.
pub fn parts_stand()
    ensures both { (d : DescriptionTree) (xs ys : List At) → AllStand d (xs ++ ys) ↔ (AllStand d xs × AllStand d ys) }
    ensures first { (d : DescriptionTree) (a : At) (rest : List At) → AllStand d (a ∷ rest) ↔ (Stands d a × AllStand d rest) }
{}

/// The places of each resource and of each operation stand in the description.
pub fn operations_stand()
    ensures resources { (d : DescriptionTree) (k : ℕ) (r : ResourceTree) → slice_get d.resources k ≡ Some r → Stands d (at 0 regions.Resources [] (Resource k r)) }
    ensures operations { (d : DescriptionTree) (o : ℕ) (operation : OperationTree) → operation_at d o ≡ Some operation → AllStand d (operation_places o operation) }
{}

/// The places of each section stand in the description, and so do those of the one section of a kind that an operation has.
pub fn sections_stand()
    ensures sections { (d : DescriptionTree) (o k : ℕ) (s : SectionTree) → slice_get (sections_at d o) k ≡ Some s → Stands d (at o (region_of s) [] (Section (sections_at d o) k)) }
    ensures inner { (d : DescriptionTree) (o k : ℕ) (s : SectionTree) → slice_get (sections_at d o) k ≡ Some s → AllStand d (section_inner o s) }
    ensures declares { (d : DescriptionTree) (o : ℕ) → AllStand d (declares_places o 0 (declares_in (sections_at d o))) }
    ensures coding { (d : DescriptionTree) (o : ℕ) (part : CodingTree) → coding_in (sections_at d o) ≡ Some part → AllStand d (coding_places o part) }
    ensures syntax { (d : DescriptionTree) (o : ℕ) (all : List SyntaxItem) → syntax_in (sections_at d o) ≡ Some all → AllStand d (parts_places o all) }
    ensures behavior { (d : DescriptionTree) (o : ℕ) (all : StmtTrees) → behavior_in (sections_at d o) ≡ Some all → AllStand d (all_places o [] all) }
    ensures expression { (d : DescriptionTree) (o : ℕ) (e : ExprTree) → expression_in (sections_at d o) ≡ Some e → AllStand d (uses o regions.Expression [] e) }
    ensures activation { (d : DescriptionTree) (o : ℕ) (all : ActTrees) → activation_in (sections_at d o) ≡ Some all → AllStand d (acts_places o all) }
{}

/// Where a condition is broken nowhere in a description, it is broken at none of an operation's places.
pub fn operations_are_free()
    ensures head { (breaks : Condition DescFault) (d : DescriptionTree) → IsFree breaks d → (o : ℕ) (operation : OperationTree) → operation_at d o ≡ Some operation → IsFreeAt breaks (at o regions.Head [] (Head operation)) }
    ensures operations { (breaks : Condition DescFault) (d : DescriptionTree) → IsFree breaks d → (o : ℕ) (operation : OperationTree) → operation_at d o ≡ Some operation → AreFree breaks (operation_places o operation) }
{}

/// Where a condition is broken nowhere in a description, it is broken at none of a section's places.
pub fn sections_are_free()
    ensures sections { (breaks : Condition DescFault) (d : DescriptionTree) → IsFree breaks d → (o k : ℕ) (s : SectionTree) → slice_get (sections_at d o) k ≡ Some s → AreFree breaks (section_inner o s) }
    ensures declares { (breaks : Condition DescFault) (d : DescriptionTree) → IsFree breaks d → (o : ℕ) → AreFree breaks (declares_places o 0 (declares_in (sections_at d o))) }
    ensures coding { (breaks : Condition DescFault) (d : DescriptionTree) → IsFree breaks d → (o : ℕ) (part : CodingTree) → coding_in (sections_at d o) ≡ Some part → AreFree breaks (coding_places o part) }
    ensures syntax { (breaks : Condition DescFault) (d : DescriptionTree) → IsFree breaks d → (o : ℕ) (all : List SyntaxItem) → syntax_in (sections_at d o) ≡ Some all → AreFree breaks (parts_places o all) }
    ensures behavior { (breaks : Condition DescFault) (d : DescriptionTree) → IsFree breaks d → (o : ℕ) (all : StmtTrees) → behavior_in (sections_at d o) ≡ Some all → AreFree breaks (all_places o [] all) }
    ensures expression { (breaks : Condition DescFault) (d : DescriptionTree) → IsFree breaks d → (o : ℕ) (e : ExprTree) → expression_in (sections_at d o) ≡ Some e → AreFree breaks (uses o regions.Expression [] e) }
    ensures activation { (breaks : Condition DescFault) (d : DescriptionTree) → IsFree breaks d → (o : ℕ) (all : ActTrees) → activation_in (sections_at d o) ≡ Some all → AreFree breaks (acts_places o all) }
{}
