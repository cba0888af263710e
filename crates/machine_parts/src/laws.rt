//! What holds of the parts of every description.

ghost use Rattle.lisa_tree.specs.Descriptions.{DescriptionTree};
ghost use Rattle.machine_parts.specs.Laws.{ArraysAreTold, RegistersHaveFirsts, FirstsFit};

/// Of each array it is told whether it is a memory.
pub fn arrays_are_told()
    ensures { (d : DescriptionTree) → ArraysAreTold d }
{}

/// There is a first value for each register that is no array.
pub fn registers_have_first_values()
    ensures { (d : DescriptionTree) → RegistersHaveFirsts d }
{}

/// Each first value is within its register's width, where these widths are from 1 to 64: `reset` keeps the type of each register.
pub fn first_values_fit()
    ensures { (d : DescriptionTree) → FirstsFit d }
{}
