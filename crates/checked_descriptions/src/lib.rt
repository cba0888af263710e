//! Descriptions from bytes, and whether they are accepted: with the tools that work over an accepted one, and images that are for it.
//!
//! `specs/Descriptions.antt` says what bytes spell a description, `specs/Conditions.antt` which conditions there are, in their order, and which its first fault is, `specs/Checked.antt` when it is accepted, and `specs/DescriptionImages.antt` what an image for it is.
#![tactic(auto)]

mod images;
mod laws;
mod reading;
mod tools;

pub use images::image_for;
pub use laws::{checks_are_unique, conditions_are_in_order};
pub use reading::description_of;
pub use tools::{Tools, tools_of};
