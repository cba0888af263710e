//! The types of expressions, and other facts about operations, choices and declared names that rest on each other.
#![tactic(auto)]

mod assignable_facts;
mod bases;
mod codings;
mod facts;
mod kinds;
mod lookups;
mod meant;
mod refused;
mod shapes;
mod type_facts;
mod types;
mod unfit;
mod uses;
mod values;

pub use kinds::Kinds;
pub use lookups::{
    known_choice, known_entry, known_operation, operation_count, operation_name, resource, sections,
};
pub use refused::{are_apart, is_apart, is_pipeline, may_input};
pub use shapes::{beside, number_shape};
pub use types::{element_type, literal, name_type, type_of, typed};
pub use uses::is_root;
pub use values::{Assignable, CodedName, Trait, Traits, TypeOf};
