//! What holds of the items, arrays and pins of a machine.

ghost use Rattle.std.specs.Prelude.{ℕ, Option};
ghost use Rattle.lisa_tree.specs.Descriptions.{DescriptionTree};
ghost use Rattle.lisa_engine.specs.Shape.{HaveWidths, HaveDistinctNames};
ghost use Rattle.use_promises.specs.lisa_machine.Verdicts.{IsAccepted};
ghost use Rattle.use_promises.specs.lisa_machine.Machines.{IsSpelled};
ghost use Rattle.use_promises.specs.machine_parts.Parts.{arrays_of, pins_of};
ghost use Rattle.lisa_forms.specs.coding_tables.Instructions.{form_count};
ghost use Rattle.lisa_forms.specs.instruction_forms.Widths.{HasWidth};
ghost use Rattle.lisa_forms.specs.description_sizes.Sizes.{items};
ghost use Rattle.lisa_forms.specs.description_sizes.Laws.{AreWithinLimits};
ghost use Rattle.lisa_forms.specs.Verdicts.{HasForms};

/// No two items of a machine share a name, nor two arrays, nor two pins.
pub fn shown_names_differ()
    ensures { (d : DescriptionTree) (width : Option ℕ) → IsAccepted d → IsSpelled d → HasForms d → HaveDistinctNames (items d width) (arrays_of d) (pins_of d) }
{}

/// Items, cells and pins have from 1 to 64 bits.
pub fn shown_widths_fit()
    ensures { (d : DescriptionTree) (width : Option ℕ) → IsAccepted d → IsSpelled d → HasForms d → HasWidth d width → HaveWidths (items d width) (arrays_of d) (pins_of d) }
{}

/// Each count of a description with forms is within its limit.
pub fn sizes_are_limited()
    ensures { (d : DescriptionTree) → HasForms d → (width : Option ℕ) × HasWidth d width × AreWithinLimits d width (form_count d) }
{}
