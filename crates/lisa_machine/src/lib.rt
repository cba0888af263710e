//! Checked descriptions: which condition is broken first, what an accepted description has, and what it promises, as laws.
#![tactic(auto)]

mod checking;
mod codings;
mod contents;
mod declaring;
mod firsts;
mod machine;
mod naming;
mod parts;
mod places;
mod ranks;
mod resolving;
mod running;
mod soundness;
mod values;

pub use checking::check;
pub use coded_names::names_instructions;
pub use codings::{activations_fit, aliases_fit, codings_fit, syntaxes_fit};
pub use contents::{
    all_that_stand_are_free, operations_are_free, operations_stand, parts_are_free, parts_stand,
    sections_are_free, sections_stand,
};
pub use declaring::{alternatives_are_operations, declarations_choose};
pub use description_graph::{edges, plain_edges};
pub use description_tables::Tables;
pub use description_types::{
    is_root, known_choice, known_operation, operation_count, operation_name, resource, sections,
};
pub use lisa_engine::Item;
pub use machine::Machine;
pub use machine_parts::{first_values, first_values_fit};
pub use naming::{names_are_apart, names_are_distinct, names_are_found, sections_are_single};
pub use places::assigned_names_are_places;
pub use ranks::operations_end;
pub use resolving::{fields_resolve, names_resolve, widths_fit};
pub use running::{activations_go_forward, controls_fit, loops_end, main_fits, resets_fit};
pub use soundness::{accepted_is_sound, kinds_are_unique, sound_is_accepted};
pub use values::{assignments_fit, expressions_have_types, types_are_shared};
