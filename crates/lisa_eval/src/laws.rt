//! What holds of resolved expressions and places.

ghost use Rattle.lisa_tree.specs.Descriptions.{DescriptionTree};
ghost use Rattle.lisa_machine.specs.Verdicts.{IsAccepted};
ghost use Rattle.lisa_eval.specs.Laws.{TermsAreMeant, NamesAreAssigned, StallsAreHeld, FlushesAreHeld};

/// In an accepted description an expression whose names are resolved to places has, over a store that holds a moment, the value that the
/// expression means at that moment in its scene.
pub fn terms_are_meant()
    ensures { (d : DescriptionTree) → IsAccepted d → TermsAreMeant d }
{}

/// Where a store holds a moment and the place of an assigned name, a local or a register, gets what is given, the store holds the moment after
/// that assignment.
pub fn names_are_assigned()
    ensures { (d : DescriptionTree) → NamesAreAssigned d }
{}

/// A store that holds a moment, and that a level is stalled or flushed besides, holds the moment in which that level is.
pub fn controls_are_held()
    ensures stalls { (d : DescriptionTree) → StallsAreHeld d }
    ensures flushes { (d : DescriptionTree) → FlushesAreHeld d }
{}
