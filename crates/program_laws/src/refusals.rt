//! Refusals of a description.
ghost use Rattle.std.specs.Prelude.{map, string_bytes};
ghost use Rattle.program_laws.specs.Refused.{RequestsRefuse, RunsRefuse, FaultsAreTold};

use lisa_cli::words_ask_for_one;

/// Each request over a description refuses it with a fault exactly where that is the first fault of its bytes, and then nothing is written.
/// So a run of the program that told a description's fault told the first one of the bytes that the file holds; and where these have a fault, each run
/// in which no call fails tells that, unless memory is wanted.
pub fn runs_refuse_first_faults(words: &[String])
    ensures requests { RequestsRefuse }
    ensures runs { RunsRefuse (map string_bytes words.now) }
    ensures always { FaultsAreTold (map string_bytes words.now) }
{
    words_ask_for_one(words);
}
