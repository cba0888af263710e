//! What the fields of forms, and values for them, are to the trees of instructions. Each law is the contract of a function that does nothing.

ghost use Rattle.std.specs.Prelude.{◌≡◌, ℕ, List, map};
ghost use Rattle.lisa_tree.specs.Descriptions.{DescriptionTree};
ghost use Rattle.instruction_trees.specs.Trees.{Tree, Form, Fits, AnyValue};
ghost use Rattle.instruction_forms.specs.coding_tables.Codings.{coding_table};
ghost use Rattle.instruction_forms.specs.coding_tables.Instructions.{instruction_items};
ghost use Rattle.instruction_forms.specs.Described.{instruction_form};
ghost use Rattle.form_patterns.specs.Instructions.{field_places, tree_fields};
ghost use Rattle.form_patterns.specs.Filled.{AreValuesOf, IsInstruction};

/// The fields of a form, in preorder, stand where those of its trees do.
pub fn fields_stand_in_preorder()
    ensures { (d : DescriptionTree) (f : Form) → Fits AnyValue (coding_table d) f (instruction_items d) → map (λ field. (field.lsb, field.width)) (tree_fields (instruction_form d f)) ≡ field_places d f }
{}

/// Values that are each within its field are those of one instruction of the form, and no instruction has others.
pub fn values_make_instructions()
    ensures some { (d : DescriptionTree) (k : ℕ) (vs : List ℕ) → AreValuesOf d k vs → (t : Tree ℕ) × IsInstruction d k vs t }
    ensures one { (d : DescriptionTree) (k : ℕ) (vs : List ℕ) (t u : Tree ℕ) → IsInstruction d k vs t → IsInstruction d k vs u → t ≡ u }
    ensures within { (d : DescriptionTree) (k : ℕ) (vs : List ℕ) (t : Tree ℕ) → IsInstruction d k vs t → AreValuesOf d k vs }
{}
