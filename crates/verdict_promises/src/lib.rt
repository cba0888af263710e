//! What the verdict on a description promises: bytes are accepted as one description, or have one first fault. Each is the contract of a
//! function that does nothing.
#![tactic(auto)]

mod laws;

pub use laws::{
    first_faults_are_one, first_faults_have_numbers, no_bytes_are_undecided, stages_are_of_bytes,
};
