//! What holds of what `reset` leaves.

ghost use Rattle.lisa_tree.specs.Descriptions.{DescriptionTree};
ghost use Rattle.typed_values.specs.ResetLaws.{KeepsTypes};

/// `reset` keeps the type of each register: its value has the type's kind and width, and its bits are within that width.
pub fn reset_keeps_types()
    ensures { (d : DescriptionTree) → KeepsTypes d }
{}
