//! What holds of descriptions that are spelled.
ghost use Rattle.std.specs.Prelude.{ℕ, List};
ghost use Rattle.lisa_tree.specs.Descriptions.{DescriptionTree};
ghost use Rattle.lisa_tree.specs.Texts.{SpellsText};
ghost use Rattle.lowered_behaviors.specs.meaning_promises.Fitting.{HaveNumbers, HaveWordPlaces};
ghost use Rattle.lowered_behaviors.specs.Agreement.{HaveNumbersInBehaviors};
ghost use Rattle.spelled_meanings.specs.Tests.{HaveNumbersInTests};

/// Each number in an EXPRESSION, in a BEHAVIOR and in the condition of an `if` of an ACTIVATION is below 2 ^ 64.
pub fn spelled_numbers_are_low()
    ensures expressions { (bytes : List ℕ) (d : DescriptionTree) → SpellsText bytes d → HaveNumbers d }
    ensures behaviors { (bytes : List ℕ) (d : DescriptionTree) → SpellsText bytes d → HaveNumbersInBehaviors d }
    ensures tests { (bytes : List ℕ) (d : DescriptionTree) → SpellsText bytes d → HaveNumbersInTests d }
{}

/// The word of a root stands in a register or a pin that is named, or in a field of the boundary before the stage.
pub fn spelled_roots_have_places()
    ensures { (bytes : List ℕ) (d : DescriptionTree) → SpellsText bytes d → HaveWordPlaces d }
{}
