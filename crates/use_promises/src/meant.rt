//! What references may mean.

ghost use Rattle.std.specs.Prelude.{◌≡◌, ℕ, List, Some, slice_get};
ghost use Rattle.lisa_tree.specs.Descriptions.{DescriptionTree};
ghost use Rattle.lisa_tree.specs.declared.declared.What.TheVariants as whats;
ghost use Rattle.lisa_tree.specs.Declarations.{Entry, entries};
ghost use Rattle.lisa_machine.specs.Verdicts.{IsAccepted};
ghost use Rattle.lisa_machine.specs.meant_declarations.Meant.{MayMean};
ghost use Rattle.use_promises.specs.Meant.{FitsReference};

/// In an accepted description some operation stands above that of a reference, each that does declares or references its name, and it isn't
/// `main`. So each declared name means something, and all declarations that it may mean are labels, or none is.
pub fn references_resolve()
    ensures above { (d : DescriptionTree) → IsAccepted d → (i : ℕ) (e : Entry) → slice_get (entries d) i ≡ Some e → e.what ≡ whats.Reference → FitsReference d e }
    ensures meant { (d : DescriptionTree) → IsAccepted d → (i : ℕ) (e : Entry) → slice_get (entries d) i ≡ Some e → (j : ℕ) × MayMean d i j }
    ensures sorts { (d : DescriptionTree) → IsAccepted d → (i j k : ℕ) (a b : Entry) → MayMean d i j → MayMean d i k → slice_get (entries d) j ≡ Some a → slice_get (entries d) k ≡ Some b → a.what ≡ whats.Label → b.what ≡ whats.Label }
{}
