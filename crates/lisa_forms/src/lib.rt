//! The forms, occurrences and items of an accepted description, and whether it has any: its codings, sizes and texts. And the words of
//! its instructions: from values and back, and whether forms overlap or aliases are covered.
#![tactic(auto)]

mod checking;
mod choosing;
mod coding;
mod contents;
mod coverage;
mod decoding;
mod fields;
mod forms;
mod laws;
mod making;
mod standing;
mod way;
mod ways;
mod width;
mod words;

pub use coding::Coding;
pub use decoding::{overlaps_are_of_trees, words_are_decoded};
pub use description_sizes::{Occurrence, Value, activating_names, places};
pub use form_patterns::{Field, Form, all_places, instruction_choice, patterns};
pub use form_promises::{FormTexts, Machine, Tables, check, texts};
pub use forms::Forms;
pub use laws::{forms_are_limited, instructions_are_of_one_form, what_is_chosen_is_past_the_root};
pub use making::form_name;
pub use pattern_tables::{Entry, PatternTable, Place, Steps, field, form_in};
