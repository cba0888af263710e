//! What a description means when it runs: the values of expressions and the effects of behaviours in a scene, at a moment of an edge; and the
//! state after any edges, by the time of its pipeline.
#![tactic(auto)]

pub mod laws;

pub use lisa_forms::{
    Coding, Field, Form, Forms, Occurrence, Place, Value, activating_names, field,
    instruction_choice, patterns, places,
};
pub use use_promises::{
    Machine, first_values, first_values_fit, is_root, machines_show, names_instructions,
    operation_count, resource, sections,
};
