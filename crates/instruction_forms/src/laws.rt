//! What forms are to the trees of instructions. Each law is the contract of a function that does nothing.

ghost use Rattle.std.specs.Prelude.{◌≡◌, ◌≤◌, ℕ, Some, length};
ghost use Rattle.lisa_tree.specs.Descriptions.{DescriptionTree};
ghost use Rattle.lisa_tree.specs.Operations.{is_alias};
ghost use Rattle.instruction_trees.specs.Trees.{Form, Fits, AnyValue, form_bits, is_plain};
ghost use Rattle.coding_tables.specs.Codings.{coding_table};
ghost use Rattle.coding_tables.specs.Instructions.{instruction_choice, instruction_items};
ghost use Rattle.instruction_forms.specs.Trees.{is_plain_tree};
ghost use Rattle.instruction_forms.specs.Described.{instruction_form};
ghost use Rattle.instruction_forms.specs.Widths.{IsInstructionWidth};

/// Each form has as many bits as an instruction, which has at most 64.
pub fn forms_have_the_width()
    ensures width { (d : DescriptionTree) (c w : ℕ) → instruction_choice d ≡ Some c → IsInstructionWidth d c w → (f : Form) → Fits AnyValue (coding_table d) f (instruction_items d) → length (form_bits (coding_table d) f (instruction_items d)) ≡ w }
    ensures small { (d : DescriptionTree) (c w : ℕ) → instruction_choice d ≡ Some c → IsInstructionWidth d c w → w ≤ 64 }
{}

/// A form is plain exactly where the trees of it are.
pub fn forms_are_plain()
    ensures { (d : DescriptionTree) (f : Form) → Fits AnyValue (coding_table d) f (instruction_items d) → is_plain_tree (is_alias d) (instruction_form d f) ≡ is_plain (is_alias d) f }
{}
