//! Laws of the module of a program. Each is the contract of a function that does nothing.
ghost use Rattle.std.specs.Prelude.{◌≡◌, ◌≤◌, ◌^◌, ℕ, List, None, length};
ghost use Rattle.lisa_engine.specs.Memory.{Memory};
ghost use Rattle.lisa_engine.specs.Shape.{AreEntries};
ghost use Rattle.lisa_engine.specs.Images.{IsImage, missing_memory};
ghost use Rattle.verilog_text.specs.Clocked.{regs, arrays, v_state};
ghost use Rattle.step_program.specs.Programs.{Program};
ghost use Rattle.step_program.specs.Effects.{p_state};
ghost use Rattle.step_program.specs.WellFormed.{IsWellFormed};
ghost use Rattle.netlist_wires.specs.Wiring.{Find, ended, built};
ghost use Rattle.netlist_wires.specs.Tables.{IsFind, HasDistinctNames};
ghost use Rattle.netlist_wires.specs.Costs.{wires_most};

/// The module of a well-formed program has the program's items, arrays and pins, and after each list of pin values the program's state,
/// for every image whose memories are the program's arrays.
pub fn modules_are_their_programs()
    ensures items { (find : Find) (p : Program) → regs (built find p).members ≡ p.items }
    ensures arrays { (find : Find) (p : Program) → arrays (built find p).members ≡ p.arrays }
    ensures pins { (find : Find) (p : Program) → (built find p).inputs ≡ p.pins }
    ensures states { (find : Find) (p : Program) (image : List Memory) (entries : List (List ℕ)) → IsFind find → IsWellFormed p → HasDistinctNames p → length (ended find p).keys ≤ 2 ^ 64 → IsImage image → missing_memory p.arrays image ≡ None → AreEntries p.pins entries → v_state (built find p) image entries ≡ p_state p image entries }
{}

/// A well-formed program takes at most one wire for each operator and each assignment of an item or temp, and for the read of a cell one
/// wire, and three for each write of the same array before it.
pub fn wires_are_few()
    ensures { (find : Find) (p : Program) → IsFind find → IsWellFormed p → length (ended find p).keys ≤ wires_most p }
{}
