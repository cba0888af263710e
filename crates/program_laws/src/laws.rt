//! What runs of the program have to do with each other. A law is the contract of a function that computes nothing.
ghost use Rattle.std.specs.Prelude.{map, string_bytes};
ghost use Rattle.program_laws.specs.Agreements.{RunsPrintAlike};

use headline_laws::modules_print_what_descriptions_print;
use lisa_cli::words_ask_for_one;
use lisa_object::images_are_unique;

/// The headline, said of runs of the program, by their words: where `verilog` on a file printed a text, and another file holds that text then,
/// `clocktrace` on that file prints what `trace` printed on the first, with the same image, schedule and number of edges; `clock` prints what `run`
/// printed, `vvcd` what `vcd` printed, and `vboard`, with the same input, what `board` printed. That is so for each run in which no call fails and
/// memory suffices.
pub fn runs_print_alike(writing: &[String], running: &[String], clocking: &[String])
    ensures { RunsPrintAlike (map string_bytes writing.now) (map string_bytes running.now) (map string_bytes clocking.now) }
{
    words_ask_for_one(writing);
    words_ask_for_one(running);
    words_ask_for_one(clocking);
    modules_print_what_descriptions_print();
    images_are_unique();
}
