//! What the operations of an accepted description write.

ghost use Rattle.std.specs.Prelude.{◌≡◌, ℕ, List, [], None, true, slice_index_or};
ghost use Rattle.lisa_tree.specs.Descriptions.{DescriptionTree};
ghost use Rattle.lisa_machine.specs.description_places.Places.{first, description_places};
ghost use Rattle.lisa_tree.specs.Operations.{coding_in, sections_at};
ghost use Rattle.lisa_machine.specs.coded_names.Codings.{is_coding};
ghost use Rattle.lisa_machine.specs.Verdicts.{IsAccepted};
ghost use Rattle.form_texts.specs.coding_checks.Uneven.{IsFirstGroupWidth};
ghost use Rattle.form_texts.specs.coding_checks.Written.{not_written};
ghost use Rattle.instruction_trees.specs.Trees.{Form, Choose, Fits, AnyValue, coding};
ghost use Rattle.form_texts.specs.coding_tables.Codings.{coding_table};
ghost use Rattle.form_texts.specs.coding_tables.Instructions.{instruction_items};
ghost use Rattle.form_texts.specs.instruction_texts.Symbols.{is_clean};
ghost use Rattle.form_texts.specs.instruction_texts.Once.{IsWrittenOnce};
ghost use Rattle.form_texts.specs.instruction_texts.Texts.{form_symbols, IsReadable};
ghost use Rattle.form_texts.specs.Syntaxes.{syntax_table};

/// In an accepted description in which each label, and each child of a coding, stands once in the coding and once in the syntax, an
/// operation with a coding that isn't the root's writes each of its fields and children once. Without such a coding it may write more.
pub fn operations_write_once()
    ensures { (d : DescriptionTree) → IsAccepted d → first (not_written d) (description_places d) ≡ None → (o : ℕ) → is_coding (coding_in (sections_at d o)) ≡ true → IsWrittenOnce (coding (coding_table d) o) (slice_index_or (syntax_table d) o []) }
{}

/// Where each child's alternatives have codings of one width as well, a form of an instruction is readable, so that its texts tell its trees
/// apart, if each number in them ends its run. No field of it is without a bit.
pub fn instructions_are_readable()
    ensures { (d : DescriptionTree) → IsAccepted d → IsFirstGroupWidth d None → first (not_written d) (description_places d) ≡ None → (o : ℕ) (own t : Form) → Fits AnyValue (coding_table d) (Choose o own t) (instruction_items d) → is_clean (form_symbols (coding_table d) (syntax_table d) o own) ≡ true → IsReadable (coding_table d) (syntax_table d) o own }
{}
