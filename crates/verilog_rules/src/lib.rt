//! What the rules on a Verilog module of the subset give.
#![tactic(auto)]

ghost use Rattle.std.specs.Prelude.{ℕ, List};
ghost use Rattle.verilog_text.specs.Trees.{ModuleTree};
ghost use Rattle.verilog_text.specs.Faults.{VAccepts};
ghost use Rattle.verilog_text.specs.Clockable.{IsClockable};

/// A module that is accepted can be clocked with words of 64 bits. A law: the function does nothing.
pub fn accepted_modules_are_clockable()
    ensures { (bytes : List ℕ) (m : ModuleTree) → VAccepts bytes m → IsClockable m }
{}
