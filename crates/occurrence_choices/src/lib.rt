//! Which occurrences the instruction of a word chooses, decided once for each form.
#![tactic(auto)]

mod asking;
mod choices;
mod chooser;
mod making;
mod standing;
mod standings;
mod way;
mod ways;

pub use chooser::Chooser;
