//! What holds of behaviours that are lowered. Each is the contract of a function that does nothing.
ghost use Rattle.std.specs.Prelude.{ℕ, List};
ghost use Rattle.step_program.specs.Programs.{Program};
ghost use Rattle.lowered_behaviors.specs.Values.{Ground};
ghost use Rattle.lowered_behaviors.specs.Laws.{ValuesAreComputed, ValuesAreScratch, BehaviorsRest, BehaviorsDo, BehaviorsKeep, BehaviorsAreFormed};

/// The steps of an expression leave its value in its operand, and give values to temps of their own alone.
pub fn values_are_computed()
    ensures values { (g : Ground) (p : Program) (before pins : List ℕ) → ValuesAreComputed g p before pins }
    ensures scratch { (g : Ground) (p : Program) (before pins : List ℕ) → ValuesAreScratch g p before pins }
{}

/// Under a guard that is 1 the steps of a behaviour do what it does, with all that it calls; under one that is 0 they do nothing.
pub fn behaviors_do()
    ensures rest { (g : Ground) (p : Program) (before pins : List ℕ) → BehaviorsRest g p before pins }
    ensures act { (g : Ground) (p : Program) (before pins : List ℕ) → BehaviorsDo g p before pins }
{}

/// Whatever the guard and the word, the steps of a behaviour leave all but registers, cells, what lasts and temps of their own as it was.
pub fn behaviors_keep()
    ensures { (g : Ground) (p : Program) (before pins : List ℕ) → BehaviorsKeep g p before pins }
{}

/// The steps of a behaviour are well formed and not deep.
pub fn behaviors_are_formed()
    ensures { (g : Ground) (p : Program) → BehaviorsAreFormed g p }
{}
