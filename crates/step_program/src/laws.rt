//! Laws of step programs. Each is the contract of a function that does nothing.
ghost use Rattle.std.specs.Prelude.{◌≡◌, ◌≢◌, ◌<◌, ◌^◌, ℕ, List, None, AllPairs};
ghost use Rattle.lisa_engine.specs.State.{State};
ghost use Rattle.lisa_engine.specs.Memory.{Memory};
ghost use Rattle.lisa_engine.specs.Shape.{IsFitting, IsShaped, AreEntries};
ghost use Rattle.lisa_engine.specs.Images.{IsImage, missing_memory};
ghost use Rattle.step_program.specs.Programs.{Program, Move};
ghost use Rattle.step_program.specs.Effects.{Moment, value, taken, effect, p_edge, p_state};
ghost use Rattle.step_program.specs.WellFormed.{IsWellFormed};

/// A step whose guard is 0 changes nothing, and any other gives its target the value that it has before the step.
pub fn one_step()
    ensures idle { (p : Program) (before pins : List ℕ) (now : Moment) (move : Move) → value p before pins now move.guard ≡ 0 → effect p before pins now move ≡ now }
    ensures taken { (p : Program) (before pins : List ℕ) (now : Moment) (move : Move) → value p before pins now move.guard ≢ 0 → effect p before pins now move ≡ taken p before pins now move.aim (value p before pins now move.value) }
{}

/// A well-formed program keeps the shape of states: one value for each item and cell, within its width.
pub fn states_have_their_shape()
    ensures edge { (p : Program) (old : State) (pins : List ℕ) → IsWellFormed p → IsShaped p.items p.arrays old → IsFitting p.pins pins → IsShaped p.items p.arrays (p_edge p old pins) }
    ensures states { (p : Program) (image : List Memory) (entries : List (List ℕ)) → IsWellFormed p → AllPairs (λ a b. a.name ≢ b.name) p.arrays → IsImage image → missing_memory p.arrays image ≡ None → AreEntries p.pins entries → IsShaped p.items p.arrays (p_state p image entries) }
{}
