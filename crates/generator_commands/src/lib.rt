//! The commands on programs that are drawn: `gen` writes one, and `soak` runs one over a description and over a module.
//!
//! `specs/Generates.antt` says what `gen` gives, and `specs/Soaks.antt` what `soak` gives.
#![tactic(auto)]

mod digests;
mod generating;
mod plans;
mod reports;
mod soaking;

pub use assembler_commands::{
    assemble_source, link_objects, list_image, objects_of_sources_keep_rules, sizes_are_limited,
    sources_have_one_answer,
};
pub use description_commands::{
    check_description, count_stages, do_with_description, format_description,
};
pub use engine_commands::replay_waves;
pub use generating::write_program;
pub use module_commands::do_with_module;
pub use soaking::soak;
