//! The meaning of a pipeline's time: what runs in an edge, what it records, and where that stands after further edges; over
//! a record that leaves open what operations do.
#![tactic(auto)]

mod laws;

pub use laws::{
    clause_steps, controls_come_first, due_are_disjoint, hardware_is_state, held_are_first,
    numbers_find_occurrences, one_stands, past_is_chosen, runs_once, slots_are_words,
    slots_stand_behind,
};
