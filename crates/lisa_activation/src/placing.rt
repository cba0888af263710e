//! The levels of an occurrence.

ghost use Rattle.std.specs.Prelude.{◌≤◌};

/// The level in which the activator of an occurrence runs, and its own: 0 for no stage, and one more than the number of a stage
/// otherwise.
#[derive(Clone, Copy, Debug, PartialEq, Eq)]
pub struct Placing {
    pub above: u8,
    pub level: u8,
    pub ghost above_within: { above ≤ 8 },
    pub ghost level_within: { level ≤ 8 },
}
