//! What the meaning of an accepted description promises: of which types values are, which locals are in scope where a statement runs, which
//! children and occurrences a word chooses, and what assignments set. Each is the contract of a function that does nothing.
#![tactic(auto)]

mod assigning;
mod fitting;
mod scenes;
mod scopes;
mod values;

pub use assigning::{assignments_set_one_place, nothing_is_cut};
pub use fitting::{contents_fit, moments_fit, root_words_fit, values_fit};
pub use scenes::{children_are_chosen, chosen_occurrences_run};
pub use scopes::locals_are_those_of_the_scope;
pub use values::values_have_types;
