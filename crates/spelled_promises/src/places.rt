//! What stands at the places of a description that is spelled.

ghost use Rattle.std.specs.Prelude.{ℕ, List};
ghost use Rattle.std.specs.List.{AllByRecursion};
ghost use Rattle.lisa_tree.specs.Descriptions.{DescriptionTree};
ghost use Rattle.lisa_tree.specs.Texts.{SpellsText};
ghost use Rattle.description_places.specs.Places.{description_places};
ghost use Rattle.spelled_promises.specs.Places.{IsWellFormedPlace};

/// In a description that is spelled, what stands at each place is well formed: names are names, the word of a root is a name or an `IN.f`,
/// no `OUT.f` is read, and what is assigned is a name, an element or an `OUT.f`.
pub fn spelled_places_are_well_formed()
    ensures { (bytes : List ℕ) (d : DescriptionTree) → SpellsText bytes d → AllByRecursion (λ a. IsWellFormedPlace a.place) (description_places d) }
{}
