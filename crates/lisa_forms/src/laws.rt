//! What holds of forms, their trees, and what they choose. Each law is the contract of a function that does nothing.

ghost use Rattle.std.specs.Prelude.{◌≡◌, ℕ, List, true, Some, slice_get};
ghost use Rattle.lisa_tree.specs.Descriptions.{DescriptionTree};
ghost use Rattle.form_promises.specs.lisa_machine.Verdicts.{IsAccepted};
ghost use Rattle.instruction_trees.specs.Trees.{Tree, Fits, IsBelow};
ghost use Rattle.instruction_trees.specs.Values.{values};
ghost use Rattle.form_patterns.specs.coding_tables.Codings.{coding_table};
ghost use Rattle.form_patterns.specs.coding_tables.Instructions.{instruction_items};
ghost use Rattle.form_patterns.specs.Filled.{IsInstruction};
ghost use Rattle.form_patterns.specs.instruction_forms.Trees.{FormTree};
ghost use Rattle.description_sizes.specs.activation_trees.declared.parts.Occurrence.{Occurrence};
ghost use Rattle.description_sizes.specs.activation_trees.Unfolding.{occurrences};
ghost use Rattle.lisa_forms.specs.Choosing.{Chooses};
ghost use Rattle.lisa_forms.specs.declared.forms.Forms.{Forms};
ghost use Rattle.lisa_forms.specs.Parts.{AreFormsOf, IsLimited};
ghost use Rattle.lisa_forms.specs.Verdicts.{HasForms};

/// A form chooses nothing that isn't past the root.
pub fn what_is_chosen_is_past_the_root()
    ensures { (d : DescriptionTree) (f : FormTree) (k : ℕ) (x : Occurrence) → Chooses d f k → slice_get (occurrences d) k ≡ Some x → x.past_root ≡ true }
{}

/// Each instruction of an accepted description is the tree of one of its forms, and of no other, with one list of values for its fields.
pub fn instructions_are_of_one_form()
    ensures some { (d : DescriptionTree) (t : Tree ℕ) → IsAccepted d → Fits IsBelow (coding_table d) t (instruction_items d) → (k : ℕ) × IsInstruction d k (values t) t }
    ensures one { (d : DescriptionTree) (j k : ℕ) (vs ws : List ℕ) (t : Tree ℕ) → IsAccepted d → IsInstruction d j vs t → IsInstruction d k ws t → (j ≡ k) × (vs ≡ ws) }
{}

/// Forms are those of an accepted description in which no condition on codings, sizes and texts is broken. Each of its counts is within its
/// limit: it has at most 8 stages, 1,024 forms, 4,096 occurrences, 8,192 items, and so on.
pub fn forms_are_limited()
    ensures accepted { (d : DescriptionTree) (f : Forms) → AreFormsOf d f → IsAccepted d }
    ensures whole { (d : DescriptionTree) (f : Forms) → AreFormsOf d f → HasForms d }
    ensures limited { (d : DescriptionTree) (f : Forms) → AreFormsOf d f → IsLimited d }
{}
