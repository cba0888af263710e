//! The files of a run, and its number of edges.
ghost use Rattle.std.specs.Prelude.{◌≡◌, ◌≤◌, ◌∷◌, [], ℕ, Some, IfSome, codes, map, string_bytes, decimal};
ghost use Rattle.std.specs.Option.{option_map};
ghost use Rattle.lisa_outcomes.specs.RunFiles.{RunNames as TheNames};
ghost use Rattle.lisa_outcomes.specs.RunViews.{names_of};
ghost use Rattle.command_words.specs.Requests.{Request, Asks, AreNames, file_word, run_words};
ghost use Rattle.command_words.specs.Asked.{request_of};

use crate::commands::Command;
use crate::words::{any_file, count_up_to, file_name};
use lisa_outcomes::RunNames;

/// The names of a run's files.
pub fn run_names<'a>(main: &'a str, image: &'a str, schedule: &'a str) -> Option<RunNames<'a>>
    ensures found { IfSome result (λ n. (run_words (names_of n) [] ≡ main.now ∷ image.now ∷ schedule.now ∷ []) × AreNames (names_of n)) }
    ensures only { (n : TheNames) → main.now ≡ n.main → image.now ≡ file_word n.image → schedule.now ≡ file_word n.schedule → AreNames n → option_map names_of result ≡ Some n }
{
    let main = file_name(main)?;
    let image = any_file(image)?;
    let schedule = any_file(schedule)?;
    Some(RunNames {
        main,
        image,
        schedule,
    })
}

/// The number of edges that stands behind the files.
pub fn counted(rest: &[String], limit: u32) -> Option<u32>
    ensures found { IfSome result (λ n. (map string_bytes rest.now ≡ decimal n ∷ []) × (n ≤ limit)) }
    ensures only { (n : ℕ) → map string_bytes rest.now ≡ decimal n ∷ [] → n ≤ limit → result ≡ Some n }
{
    let [edges] = rest else {
        return None;
    };
    count_up_to(edges.as_str(), limit)
}

/// The operands of `occupancy`.
pub fn occupancy_command(operands: &[String]) -> Option<Command<'_>>
    ensures found { IfSome result (λ c. Asks (codes "occupancy" ∷ map string_bytes operands.now) (request_of c)) }
    ensures only { (r : Request) → Asks (codes "occupancy" ∷ map string_bytes operands.now) r → option_map request_of result ≡ Some r }
{
    let [main, image, schedule, rest @ ..] = operands else {
        return None;
    };
    let names = run_names(main.as_str(), image.as_str(), schedule.as_str())?;
    let edges = counted(rest, 1_000_000)?;
    Some(Command::Occupancy { names, edges })
}
