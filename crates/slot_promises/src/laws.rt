//! The law of slots, which is the contract of a function that does nothing.

ghost use Rattle.pipeline_time.specs.Cores.{Core};
ghost use Rattle.pipeline_time.specs.Sound.{IsSound};
ghost use Rattle.slot_promises.specs.Slots.{PastHasSlot, DueHasSlot};

/// What stands past the root stands with a slot of its word, in the same stage; and so what is due past the root when its turn comes. An
/// instruction may have the word 0, so that the word of the stage alone doesn't tell it.
pub fn past_stands_with_a_slot<R, M>()
    ensures standing { (core : Core R M) → IsSound core → PastHasSlot core }
    ensures due { (core : Core R M) → IsSound core → DueHasSlot core }
{}
