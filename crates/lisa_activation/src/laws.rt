//! The queues against the bits of the hardware. Each law is the contract of a function that does nothing.

ghost use Rattle.pipeline_time.specs.Cores.{Core};
ghost use Rattle.lisa_activation.specs.Shown.{DueIsDue, EnterIsActivate, FinishIsNextBit};

/// What is due by the queues is due by the bits.
pub fn due_is_due<R, M>()
    ensures { (core : Core R M) → DueIsDue core }
{}

/// To enter an occurrence is to record it.
pub fn enter_is_activate<R, M>()
    ensures { (core : Core R M) → EnterIsActivate core }
{}

/// What the queues hold when an edge has ended is what the bits are then.
pub fn finish_is_next_bit<R, M>()
    ensures { (core : Core R M) → FinishIsNextBit core }
{}
