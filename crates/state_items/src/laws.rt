//! Laws on items and their places. Each is the contract of a function that does nothing.

ghost use Rattle.lisa_tree.specs.Descriptions.{DescriptionTree};
ghost use Rattle.lisa_meaning.specs.lisa_forms.Verdicts.{HasForms};
ghost use Rattle.state_items.specs.Laws.{ItemsAreAtPlaces, HasLimits};

/// The value of each item after any edges is what stands at its place.
pub fn items_are_at_places()
    ensures { (d : DescriptionTree) → ItemsAreAtPlaces d }
{}

/// The sizes of a description with forms are within their limits: of stages, occurrences, items and all else that is counted.
pub fn sizes_are_limited()
    ensures { (d : DescriptionTree) → HasForms d → HasLimits d }
{}
