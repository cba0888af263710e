//! What commands give.

ghost use Rattle.std.specs.Prelude.{ℕ, ◌≡◌, List};
ghost use Rattle.lisa_outcomes.specs.Outcomes.{Finished};
ghost use Rattle.lisa_outcomes.specs.RunFiles.{RunBytes};
ghost use Rattle.engine_commands.specs.declared.tasks.Task.{Task};
ghost use Rattle.engine_commands.specs.Tasks.{Driver, is_on_board, task_outcome};
ghost use Rattle.engine_commands.specs.Replays.{GivesReplay};
ghost use Rattle.lisa_engine.specs.Machines.{Machine};
ghost use Rattle.hex_files.specs.declared.formats.MemoryFormat.{MemoryFormat};
ghost use Rattle.verilog_command.specs.checked_descriptions.Descriptions.{AfterSpelling};
ghost use Rattle.generator_commands.specs.description_commands.Formats.{Formats};
ghost use Rattle.generator_commands.specs.description_commands.Checks.{Checks};
ghost use Rattle.generator_commands.specs.description_commands.Runs.{GivesRun};
ghost use Rattle.generator_commands.specs.description_commands.Occupancies.{GivesOccupancy};
ghost use Rattle.module_commands.specs.Clocks.{GivesClock};
ghost use Rattle.generator_commands.specs.assembler_commands.Assembled.{GivesObject};
ghost use Rattle.generator_commands.specs.assembler_commands.Links.{GivesLink};
ghost use Rattle.generator_commands.specs.assembler_commands.Listed.{GivesListing};
ghost use Rattle.verilog_command.specs.Modules.{WritesVerilog};
ghost use Rattle.generator_commands.specs.Generates.{GivesProgram};
ghost use Rattle.generator_commands.specs.Soaks.{GivesSoak};
ghost use Rattle.memory_commands.specs.Exports.{GivesExport};
ghost use Rattle.memory_commands.specs.Imports.{GivesImport};
ghost use Rattle.command_promises.specs.Runs.{IsSimulated, IsClocked};
ghost use Rattle.command_promises.specs.Refusals.{RefusesWith, RefusesFirsts, RefusesUnread, RefusesModules};

/// What `run`, `trace`, `vcd` and `debug` give over an accepted description is the text of the states that it means, with its image's cells first
/// and under its schedule's pins, and `board` what its board's console prints; and where they finish, they give that.
pub fn runs_show_states()
    ensures shown { (task : Task) (bytes : RunBytes) (input : List ℕ) (m : Machine) (driver : Driver (is_on_board task)) → IsSimulated task bytes m driver → GivesRun task bytes input (task_outcome task m driver input) }
    ensures only { (task : Task) (bytes : RunBytes) (input text : List ℕ) → GivesRun task bytes input (Finished text)
        → (m : Machine) × (driver : Driver (is_on_board task)) × IsSimulated task bytes m driver × (task_outcome task m driver input ≡ Finished text) }
{}

/// The same of `clock`, `clocktrace`, `vvcd`, `vboard` and `vdebug`, over a module that is accepted.
pub fn clocks_show_states()
    ensures shown { (task : Task) (bytes : RunBytes) (input : List ℕ) (m : Machine) (driver : Driver (is_on_board task)) → IsClocked task bytes m driver → GivesClock task bytes input (task_outcome task m driver input) }
    ensures only { (task : Task) (bytes : RunBytes) (input text : List ℕ) → GivesClock task bytes input (Finished text)
        → (m : Machine) × (driver : Driver (is_on_board task)) × IsClocked task bytes m driver × (task_outcome task m driver input ≡ Finished text) }
{}

/// Each command over a description refuses it with a fault exactly where that is the first fault of its bytes, and then nothing is written, and
/// where there is one it gives nothing else; `fmt`, which asks of them only that they spell a description, with the fault of bytes that spell none.
pub fn refusals_are_first_faults()
    ensures formats { (bytes : List ℕ) → RefusesUnread bytes (AfterSpelling bytes Formats) }
    ensures checks { (bytes : List ℕ) → RefusesFirsts bytes (AfterSpelling bytes Checks) }
    ensures modules { (bytes : List ℕ) → RefusesFirsts bytes (AfterSpelling bytes WritesVerilog) }
    ensures objects { (bytes source : List ℕ) → RefusesFirsts bytes (GivesObject bytes source) }
    ensures images { (bytes : List ℕ) (objects : List (List ℕ)) → RefusesFirsts bytes (GivesLink bytes objects) }
    ensures listings { (bytes image : List ℕ) → RefusesFirsts bytes (GivesListing bytes image) }
    ensures programs { (bytes : List ℕ) (number count : ℕ) → RefusesFirsts bytes (GivesProgram bytes number count) }
    ensures soaks { (bytes verilog : List ℕ) (number count edges : ℕ) → RefusesFirsts bytes (GivesSoak bytes verilog number count edges) }
    ensures runs { (task : Task) (bytes : RunBytes) (input : List ℕ) → RefusesFirsts bytes.main (GivesRun task bytes input) }
    ensures exports { (format : MemoryFormat) (bytes image memory : List ℕ) → RefusesFirsts bytes (GivesExport format bytes image memory) }
    ensures imports { (format : MemoryFormat) (bytes file memory : List ℕ) → RefusesFirsts bytes (GivesImport format bytes file memory) }
    ensures occupancies { (edges : ℕ) (bytes : RunBytes) → RefusesFirsts bytes.main (GivesOccupancy edges bytes) }
{}

/// `clock`, `clocktrace`, `vvcd`, `vboard` and `vdebug` refuse a module with a fault exactly where that is the first fault of its bytes, then
/// nothing is written, and where there is one they give nothing else. They refuse no description, and neither does `unvcd`.
pub fn clocks_refuse_first_faults()
    ensures modules { (task : Task) (bytes : RunBytes) (input : List ℕ) → RefusesModules bytes.main (GivesClock task bytes input) }
    ensures descriptions { (task : Task) (bytes : RunBytes) (input : List ℕ) → RefusesWith (λ f. ⊥) (GivesClock task bytes input) }
    ensures dumps { (bytes : List ℕ) → RefusesWith (λ f. ⊥) (GivesReplay bytes) }
{}
