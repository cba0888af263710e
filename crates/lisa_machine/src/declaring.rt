//! What operations declare.

ghost use Rattle.std.specs.Prelude.{◌≡◌, ◌<◌, ℕ, List, [], ◌∷◌, Some, false, length, map, slice_get};
ghost use Rattle.std.specs.List.{AllByRecursion};
ghost use Rattle.lisa_tree.specs.Descriptions.{DescriptionTree};
ghost use Rattle.lisa_tree.specs.declared.declared.What.TheVariants as whats;
ghost use Rattle.lisa_tree.specs.Operations.{number_of, is_alias};
ghost use Rattle.lisa_tree.specs.Declarations.{Entry, Choice, entries, choices, what_at, alternatives_at, plain_at};
ghost use Rattle.lisa_machine.specs.Verdicts.{IsAccepted};
ghost use Rattle.lisa_machine.specs.Declaring.{Chooses, IsOperation};

/// A declared group or instance chooses among what its own operation lists, in any description.
pub fn declarations_choose()
    ensures { (d : DescriptionTree) (i : ℕ) (e : Entry) → slice_get (entries d) i ≡ Some e → Chooses (choices d) e e.what }
{}

/// In an accepted description each alternative is an operation, so the numbers of a choice's alternatives are as many as their names and in
/// their order. Each declared group and instance has an alternative that is no alias, and an instance has no other one.
pub fn alternatives_are_operations()
    ensures names { (d : DescriptionTree) → IsAccepted d → (c : ℕ) (x : Choice) → slice_get (choices d) c ≡ Some x → AllByRecursion (IsOperation d) x.alternatives }
    ensures numbers { (d : DescriptionTree) → IsAccepted d → (c : ℕ) (x : Choice) → slice_get (choices d) c ≡ Some x → map (number_of d) x.alternatives ≡ map (λ o. Some o) (alternatives_at d c) }
    ensures count { (d : DescriptionTree) → IsAccepted d → (c : ℕ) (x : Choice) → slice_get (choices d) c ≡ Some x → length (alternatives_at d c) ≡ length x.alternatives }
    ensures groups { (d : DescriptionTree) → IsAccepted d → (i c : ℕ) → what_at d i ≡ Some (whats.Group c) → 0 < length (plain_at d c) }
    ensures instances { (d : DescriptionTree) → IsAccepted d → (i c : ℕ) → what_at d i ≡ Some (whats.Instance c) → (o : ℕ) × (alternatives_at d c ≡ o ∷ []) × (is_alias d o ≡ false) }
{}
