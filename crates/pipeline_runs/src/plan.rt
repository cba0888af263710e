//! What a pipeline runs.

ghost use Rattle.std.specs.Prelude.{◌≡◌};
ghost use Rattle.pipeline_time.specs.Cores.{level_of_slots};

use crate::tree::Occurrence;

/// What a pipeline runs, made once from a description.
#[derive(Drop)]
pub struct Plan {
    pub stages: u32,
    /// The level in which the root runs; none without an occurrence of the root or without stages.
    pub root_level: Option<u8>,
    /// All occurrences, in order of their numbers. The first one is that of `main`.
    pub occurrences: Vec<Occurrence>,
}

impl Plan {
    // The level in which slots are made.
    pub(crate) fn slot_level(&self) -> u8
        ensures { result ≡ level_of_slots self.now.root_level }
    {
        match self.root_level {
            None => 0,
            Some(0) => 1,
            Some(level) => level,
        }
    }
}
