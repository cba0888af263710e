//! What the definition of checked descriptions comes to.
ghost use Rattle.std.specs.Prelude.{◌≡◌, ◌⊎◌, ◌↔◌};
ghost use Rattle.lisa_tree.specs.declared.faults.DescFault.{DescFault};
ghost use Rattle.lisa_tree.specs.Descriptions.{DescriptionTree};
ghost use Rattle.lisa_syntax.specs.lisa_machine.Verdicts.{IsAccepted, IsFirstFault};
ghost use Rattle.lisa_outcomes.specs.declared.status.Refusal.{Refusal};
ghost use Rattle.checked_descriptions.specs.Checked.{Checked, IsChecked, IsFaulty};
ghost use Rattle.checked_descriptions.specs.Conditions.{IsSound, IsFirstOfAll};
ghost use Rattle.checked_descriptions.specs.Instructions.{HasInstructions, IsFirstInstructionFault};

/// A description is checked in one way, and not where it is refused. A law: the function does nothing.
pub fn checks_are_unique()
    ensures one { (d : DescriptionTree) (a b : Checked) → IsChecked d a → IsChecked d b → a ≡ b }
    ensures whole { (d : DescriptionTree) (c : Checked) (refusal : Refusal) → IsChecked d c → IsFaulty d refusal → ⊥ }
{}

/// The list of all conditions is that of the machine's, of those on forms and of those on words, texts and aliases, one after another. A
/// law: the function does nothing.
pub fn conditions_are_in_order()
    ensures sound { (d : DescriptionTree) → IsSound d ↔ (IsAccepted d × HasInstructions d) }
    ensures first { (d : DescriptionTree) (f : DescFault) → IsFirstOfAll d f ↔ (IsFirstFault d f ⊎ (IsAccepted d × IsFirstInstructionFault d f)) }
{}
