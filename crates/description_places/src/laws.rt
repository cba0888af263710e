//! What follows where no fault is found.

ghost use Rattle.std.specs.Prelude.{◌≡◌, List, None};
ghost use Rattle.std.specs.List.{AllByRecursion};
ghost use Rattle.lisa_tree.specs.declared.faults.DescFault.{DescFault};
ghost use Rattle.description_places.specs.Places.{At, Condition, first};

/// Where no first fault is found, none of the places is at fault.
pub fn no_place_is_at_fault()
    ensures { (breaks : Condition DescFault) (all : List At) → first breaks all ≡ None → AllByRecursion (λ a. breaks a.operation a.region a.scope a.place ≡ None) all }
{}
