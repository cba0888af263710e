//! Laws of the module of a program. Each is the contract of a function that does nothing.
ghost use Rattle.std.specs.Prelude.{ℕ, ◌≤◌, ◌^◌, length};
ghost use Rattle.verilog_text.specs.Trees.{members_depth};
ghost use Rattle.verilog_text.specs.Printing.{module_text};
ghost use Rattle.verilog_text.specs.Faults.{VAccepts};
ghost use Rattle.step_program.specs.Programs.{Program};
ghost use Rattle.step_program.specs.WellFormed.{IsWellFormed};
ghost use Rattle.netlist_wires.specs.Wiring.{Find, ended, built};
ghost use Rattle.netlist_wires.specs.Tables.{IsFind, HasDistinctNames};
ghost use Rattle.netlist_rules.specs.Sizes.{module_most, AreEnough};

/// The text of a well-formed program's module spells the module, and nothing is broken in it. Its expressions and actions are at most 3
/// deep, and it has at most so many bytes as stated: where the numbers of wires have 20 digits, and where they have fewer, if these are
/// enough.
pub fn modules_are_accepted()
    ensures accepted { (find : Find) (p : Program) → IsFind find → IsWellFormed p → HasDistinctNames p → length (ended find p).keys ≤ 2 ^ 64 → VAccepts (module_text (built find p)) (built find p) }
    ensures depth { (find : Find) (p : Program) → IsFind find → IsWellFormed p → length (ended find p).keys ≤ 2 ^ 64 → members_depth (built find p).members ≤ 3 }
    ensures size { (find : Find) (p : Program) → IsFind find → IsWellFormed p → length (ended find p).keys ≤ 2 ^ 64 → length (module_text (built find p)) ≤ module_most 20 p }
    ensures short { (find : Find) (p : Program) (digits : ℕ) → IsFind find → IsWellFormed p → length (ended find p).keys ≤ 2 ^ 64 → AreEnough digits p → length (module_text (built find p)) ≤ module_most digits p }
{}
