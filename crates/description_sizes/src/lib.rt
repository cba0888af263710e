//! The sizes of a description: what is counted of it, the first count that exceeds its limit, and what a description unfolds to whose sizes
//! are within their limits.
#![tactic(auto)]

mod laws;
mod resources;
mod sizes;
mod texts;
mod unfolding;

pub use activation_trees::{
    Occurrence, activating_names, activators_come_first, first_root_twice, places,
};
pub use laws::{reset_is_short, sizes_are_within_limits, texts_are_counted};
pub use sizes::{Measure, Size};
pub use typed_values::Value;
pub use unfolding::{Unfolded, unfold};
