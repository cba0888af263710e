//! The instructions of an accepted description.

ghost use Rattle.std.specs.Prelude.{◌≡◌, ◌≤◌, ℕ, Option, None, Some, true, false};
ghost use Rattle.lisa_tree.specs.Descriptions.{DescriptionTree};
ghost use Rattle.lisa_tree.specs.Operations.{is_root};
ghost use Rattle.lisa_machine.specs.Machines.{IsSpelled};
ghost use Rattle.lisa_machine.specs.Verdicts.{IsAccepted};
ghost use Rattle.form_texts.specs.coding_checks.Uneven.{IsFirstGroupWidth};
ghost use Rattle.instruction_trees.specs.Forms.{Distinct};
ghost use Rattle.form_texts.specs.coding_tables.Instructions.{instruction_choice, forms_of};
ghost use Rattle.form_texts.specs.instruction_forms.Widths.{HasInstructionWidth, HasWidth};

/// In an accepted description in which each child's alternatives have codings of one width, the group of all instructions has a width. It is
/// from 1 to 64, that of the place that holds the root's word. Where there is no such group, there are no instructions to have one.
pub fn instructions_have_a_width()
    ensures width { (d : DescriptionTree) → IsAccepted d → IsFirstGroupWidth d None → HasInstructionWidth d }
    ensures exact { (d : DescriptionTree) → IsAccepted d → IsFirstGroupWidth d None → (width : Option ℕ) × HasWidth d width }
    ensures small { (d : DescriptionTree) (w : ℕ) → HasWidth d (Some w) → w ≤ 64 }
    ensures some { (d : DescriptionTree) → IsAccepted d → IsSpelled d → IsFirstGroupWidth d None → (w : ℕ) → HasWidth d (Some w) → 1 ≤ w }
{}

/// In an accepted description with a root there is a group of all instructions. Without a root there is none, in any description.
pub fn a_root_has_a_group()
    ensures some { (d : DescriptionTree) → IsAccepted d → (o : ℕ) → is_root d o ≡ true → (c : ℕ) × (instruction_choice d ≡ Some c) }
    ensures none { (d : DescriptionTree) → ((o : ℕ) → is_root d o ≡ false) → instruction_choice d ≡ None }
{}

/// In an accepted description no form of an instruction is listed twice.
pub fn forms_are_distinct()
    ensures { (d : DescriptionTree) → IsAccepted d → Distinct (forms_of d) }
{}
