//! The codings of a description's operations as tables of items, which operation has the root, and how many forms instructions have.
#![tactic(auto)]

mod counts;
mod laws;
mod roots;

pub use coded_names::{CodedNames, pattern_width};
pub use coding_checks::{Widths, first_group_width, first_not_written};
pub use counts::{FormCounts, count_forms};
pub use description_types::{operation_count, operation_name, sections};
pub use laws::instructions_have_forms;
pub use lisa_words::{Kind, Name, NoMemory};
pub use roots::{choice_named, instruction_choice};
