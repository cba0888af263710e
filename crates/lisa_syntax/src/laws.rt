//! What instructions are to their texts. Each law is the contract of a function that does nothing.

ghost use Rattle.std.specs.Prelude.{◌≡◌, ◌<◌, ◌↔◌, ℕ, List, [], None, Ok, map};
ghost use Rattle.std.specs.List.{All};
ghost use Rattle.lisa_tree.specs.Descriptions.{DescriptionTree};
ghost use Rattle.lisa_forms.specs.lisa_machine.Machines.{IsSpelled};
ghost use Rattle.lisa_forms.specs.lisa_machine.Verdicts.{IsAccepted};
ghost use Rattle.asm_source.specs.Plain.{PlainToken, Instruction};
ghost use Rattle.asm_source.specs.Parts.{line_of};
ghost use Rattle.instruction_trees.specs.Trees.{Tree};
ghost use Rattle.lisa_forms.specs.coding_tables.Instructions.{forms_of, form_count};
ghost use Rattle.pattern_tables.specs.Instructions.{form_at};
ghost use Rattle.lisa_forms.specs.form_patterns.Filled.{IsInstruction};
ghost use Rattle.instruction_texts.specs.declared.shapes.Shape.{Shape};
ghost use Rattle.instruction_texts.specs.declared.shapes.Token.{Token};
ghost use Rattle.instruction_texts.specs.Lines.{Plain, Matches, plain_token};
ghost use Rattle.instruction_texts.specs.Shapes.{IsSized};
ghost use Rattle.instruction_texts.specs.Written.{text_bytes};
ghost use Rattle.text_tables.specs.Reading.{IsMatch};
ghost use Rattle.lisa_forms.specs.Verdicts.{HasForms};
ghost use Rattle.lisa_syntax.specs.Lines.{all_shapes};
ghost use Rattle.lisa_syntax.specs.Operands.{IsTextWith, IsLineOf};
ghost use Rattle.lisa_syntax.specs.Texts.{InstructionWrites, IsAmbiguityVerdict};
ghost use Rattle.lisa_syntax.specs.Trees.{instruction_text};

/// The texts that a form writes are those of its instructions. Two different instructions of one form never share a text; where no two forms
/// are ambiguous, no two instructions do.
pub fn texts_are_of_one_instruction()
    ensures written { (d : DescriptionTree) (k : ℕ) (ts : List Token) → IsAccepted d → HasForms d → k < form_count d → InstructionWrites d (form_at (forms_of d) k) ts ↔ ((vs : List ℕ) × (t : Tree ℕ) × IsInstruction d k vs t × (instruction_text d t ≡ ts)) }
    ensures own { (d : DescriptionTree) (k : ℕ) (vs ws : List ℕ) (t u : Tree ℕ) → IsAccepted d → HasForms d → IsInstruction d k vs t → IsInstruction d k ws u → instruction_text d t ≡ instruction_text d u → t ≡ u }
    ensures all { (d : DescriptionTree) (j k : ℕ) (vs ws : List ℕ) (t u : Tree ℕ) → IsAccepted d → HasForms d → IsAmbiguityVerdict d None → IsInstruction d j vs t → IsInstruction d k ws u → instruction_text d t ≡ instruction_text d u → t ≡ u }
{}

/// A line matches pieces exactly where it is their text with some values, once each operand is replaced by the text of a number that is
/// written without `-`.
pub fn operands_stand_for_numbers()
    ensures { (ss : List Shape) (gs : List Plain) (line : List PlainToken) → All IsSized ss → Matches ss gs line ↔ ((vs : List ℕ) × IsTextWith ss vs gs line) }
{}

/// A line is of a form exactly where it is the text of one of the form's instructions, once each operand is replaced by the text of a
/// value that is written without `-`.
pub fn lines_are_texts_of_instructions()
    ensures { (d : DescriptionTree) (k : ℕ) (gs : List Plain) (line : List PlainToken) → IsAccepted d → HasForms d → IsMatch (all_shapes d) line k gs ↔ ((fields : List ℕ) × (t : Tree ℕ) × (vs : List ℕ) × IsInstruction d k fields t × IsLineOf d k t vs gs line) }
{}

/// The bytes of an instruction's text, alone in a line of a source, are read as the text's pieces: no label, comment or `@` stands among
/// them, and no directive is in their place. The description's strings have no `:`, `;` or `@`.
pub fn texts_are_lines()
    ensures { (d : DescriptionTree) (k : ℕ) (vs : List ℕ) (t : Tree ℕ) → IsAccepted d → IsSpelled d → HasForms d → IsInstruction d k vs t → line_of (text_bytes (instruction_text d t)) ≡ Ok ([], Instruction (map plain_token (instruction_text d t))) }
{}
