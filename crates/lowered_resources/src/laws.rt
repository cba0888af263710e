//! What holds of resources in a step program. Each is the contract of a function that does nothing.
ghost use Rattle.lisa_tree.specs.Descriptions.{DescriptionTree};
ghost use Rattle.step_program.specs.Programs.{Program};
ghost use Rattle.lowered_resources.specs.Places.{Places};
ghost use Rattle.lowered_resources.specs.Laws.{ResourcesAreRead, ResourcesAreFormed, PutsRest, PutsAssign, PutsAreFormed};
ghost use Rattle.lowered_resources.specs.Laws.{ControlsRest, ControlsAct, ControlsAreFormed};

/// Registers, pins, elements of arrays, fields of boundaries and locals have the values that are read.
pub fn resources_are_read()
    ensures { (d : DescriptionTree) (at : Places) (p : Program) → ResourcesAreRead d at p }
{}

/// What they stand for is well formed.
pub fn resources_are_formed()
    ensures { (d : DescriptionTree) (at : Places) (p : Program) → ResourcesAreFormed d at p }
{}

/// Under a guard that is 0 an assignment changes temps of its own alone; under a guard that is 1 it assigns.
pub fn assignments_assign()
    ensures rest { (d : DescriptionTree) (at : Places) (p : Program) → PutsRest d at p }
    ensures assign { (d : DescriptionTree) (at : Places) (p : Program) → PutsAssign d at p }
    ensures formed { (d : DescriptionTree) (at : Places) (p : Program) → PutsAreFormed d at p }
{}

/// So do stalls and flushes of stages.
pub fn controls_act()
    ensures rest { (d : DescriptionTree) (at : Places) (p : Program) → ControlsRest d at p }
    ensures act { (d : DescriptionTree) (at : Places) (p : Program) → ControlsAct d at p }
    ensures formed { (d : DescriptionTree) (at : Places) (p : Program) → ControlsAreFormed d at p }
{}
