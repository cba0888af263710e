//! Temps of locals.
ghost use Rattle.std.specs.Prelude.{◌≤◌};

use lisa_words::Kind;

/// The temp that holds a local, and its type.
#[derive(Clone, Copy, Debug, PartialEq, Eq)]
pub struct LocalTemp {
    pub temp: u32,
    pub kind: Kind,
    pub width: u32,
    pub ghost at_least_one: { 1 ≤ width },
    pub ghost at_most_64: { width ≤ 64 },
}
