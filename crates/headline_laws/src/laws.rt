//! What holds of the texts that `verilog` gives. Each law is the contract of a function without parameters that computes nothing.
ghost use Rattle.headline_laws.specs.Headline.{ModulesPrintAlike, TracesAreMeant, StatesAreMeant, WavesAreMeant, BoardsAreMeant, ModulesDoAlike};
ghost use Rattle.headline_laws.specs.Files.{FilesPrintAlike, RunsPrintOne, ClocksPrintOne};
ghost use Rattle.headline_laws.specs.Replayed.{WavesAreReplayed};

use activation_plans::laws::states_are_shaped;
use description_commands::sizes_are_limited;
use lisa_object::images_are_unique;
use program_declarations::shown_is_declared;
use vcd_trace::{runs_are_read_again, traces_are_kept};
use verilog_command::checks_are_unique;

/// The headline. What `trace` prints over a description, an image and a schedule is the trace of the states that the description means; and the module
/// that `verilog` wrote, clocked with the same image and schedule, prints the same: by `clocktrace` what `trace` prints, by `clock` what `run` prints,
/// by `vvcd` what `vcd` prints, and by `vboard`, on the same board and with the same input, what `board` prints.
pub fn modules_print_what_descriptions_print()
    ensures alike { ModulesPrintAlike }
    ensures traces { TracesAreMeant }
    ensures states { StatesAreMeant }
    ensures waves { WavesAreMeant }
    ensures boards { BoardsAreMeant }
    ensures files { FilesPrintAlike }
{
    checks_are_unique();
    sizes_are_limited();
}

/// With an image that is for the description, or without one, each outcome of `run`, `trace`, `vcd` and `board` over the description is one of `clock`,
/// `clocktrace`, `vvcd` and `vboard` over the module, and the other way round: what is printed and what is refused. Only a description refuses an image
/// that is for another one.
pub fn modules_do_what_descriptions_do()
    ensures { ModulesDoAlike }
{
    checks_are_unique();
}

/// What a task prints over a description, for the bytes of its files and of the input, is one text, and so is what it prints over a module. So two runs
/// of these commands that are done have printed the same, where the headline says that one may.
pub fn runs_print_one_text()
    ensures runs { RunsPrintOne }
    ensures clocks { ClocksPrintOne }
{
    checks_are_unique();
    images_are_unique();
}

/// Of what `vcd` printed over a description `unvcd` prints the trace of the states that the description means, without the lines of cells.
pub fn waves_are_replayed()
    ensures { WavesAreReplayed }
{
    modules_print_what_descriptions_print();
    shown_is_declared();
    states_are_shaped();
    runs_are_read_again();
    traces_are_kept();
}
