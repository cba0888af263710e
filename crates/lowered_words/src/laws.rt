//! What holds of words in their rows. Each law is the contract of a function that does nothing.

ghost use Rattle.std.specs.Prelude.{ℕ, None, Some, ◌≤◌};
ghost use Rattle.lisa_tree.specs.Descriptions.{DescriptionTree};
ghost use Rattle.scene_paths.specs.lisa_machine.Verdicts.{IsAccepted};
ghost use Rattle.instruction_forms.specs.Widths.{HasWidth};
ghost use Rattle.step_program.specs.WellFormed.{IsWidth};
ghost use Rattle.lowered_words.specs.Rows.{IsWordWidth};
ghost use Rattle.lowered_words.specs.Laws.{PartsAgree, LabelsAgree, LabelsStand, ChoicesAreStandings, ChoicesAreParts, AreApart, RowsAreLoaded, LoadsLeaveOthers, LoadsLeaveRows, LoadsAreFormed, RowsLast, RowsTell, RowsAreLeaves, LabelsCompute, LabelsAreFormed};

/// The width of instructions is that of words; without instructions any width of a program is.
pub fn widths_are_of_words()
    ensures some { (d : DescriptionTree) (w : ℕ) → HasWidth d (Some w) → 1 ≤ w → IsWordWidth d w }
    ensures none { (d : DescriptionTree) (w : ℕ) → HasWidth d None → IsWidth w → IsWordWidth d w }
{}

/// Forms that have a part by one way have the same fields there. So a label is one field in the instructions of all words, and that stands in the word.
pub fn parts_agree()
    ensures forms { (d : DescriptionTree) (width : ℕ) → IsWordWidth d width → PartsAgree d }
    ensures labels { (d : DescriptionTree) (width : ℕ) → IsWordWidth d width → LabelsAgree d }
    ensures stand { (d : DescriptionTree) (width : ℕ) → IsAccepted d → IsWordWidth d width → LabelsStand d width }
{}

/// An occurrence past the root is chosen by a form exactly where that has a part by the way of the occurrence's choice, and is that part where it
/// stands at one.
pub fn choices_are_standings()
    ensures standings { (d : DescriptionTree) → ChoicesAreStandings d }
    ensures parts { (d : DescriptionTree) → ChoicesAreParts d }
{}

/// What loads a row leaves all else as it was, other rows too, and the row has the word then, where no two plain forms have one in common.
pub fn rows_are_loaded()
    ensures loaded { (d : DescriptionTree) (width : ℕ) → IsWordWidth d width → AreApart d → RowsAreLoaded d width }
    ensures others { (d : DescriptionTree) (width : ℕ) → LoadsLeaveOthers d width }
    ensures rows { (d : DescriptionTree) (width : ℕ) → LoadsLeaveRows d width }
    ensures formed { (d : DescriptionTree) (width : ℕ) → IsWordWidth d width → LoadsAreFormed d width }
{}

/// A row has its word as long as its temps are as they were, and tells which parts the word's instruction has, and what it chooses.
pub fn rows_tell()
    ensures last { (d : DescriptionTree) → RowsLast d }
    ensures tell { (d : DescriptionTree) → RowsTell d }
    ensures leaves { (d : DescriptionTree) → RowsAreLeaves d }
{}

/// What reads a label from a row has the label's value, where the word's instruction has the part, and is well formed.
pub fn labels_compute()
    ensures values { (d : DescriptionTree) (width : ℕ) → IsAccepted d → IsWordWidth d width → LabelsCompute d width }
    ensures formed { (d : DescriptionTree) (width : ℕ) → IsAccepted d → IsWordWidth d width → LabelsAreFormed d width }
{}
