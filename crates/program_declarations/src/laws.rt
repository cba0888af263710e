//! What holds of the items, arrays and pins of a description as those of a step program.

ghost use Rattle.std.specs.Prelude.{ℕ, Option};
ghost use Rattle.lisa_tree.specs.Descriptions.{DescriptionTree};
ghost use Rattle.program_declarations.specs.Laws.{ShownIsDeclared};

use item_promises::{shown_names_differ, shown_widths_fit, sizes_are_limited};

/// The items, arrays and pins of a spelled description with forms are declared as a well-formed program asks, and there are no more of them
/// than there may be. No two share a name, whichever of the three they are.
pub fn shown_is_declared()
    ensures { (d : DescriptionTree) (width : Option ℕ) → ShownIsDeclared d width }
{
    shown_names_differ();
    shown_widths_fit();
    sizes_are_limited();
}
