//! The commands over an engine: the simulator of a description, or the clock of a module.
ghost use Rattle.std.specs.Prelude.{◌≡◌, ◌∷◌, [], ℕ, Some, IsTrue, IfSome, ◌↔◌, map, string_bytes};
ghost use Rattle.std.specs.Option.{option_map};
ghost use Rattle.lisa_outcomes.specs.RunFiles.{RunNames as TheNames};
ghost use Rattle.lisa_outcomes.specs.RunViews.{names_of};
ghost use Rattle.engine_commands.specs.declared.tasks.Task.{Task as TheTask};
ghost use Rattle.engine_commands.specs.declared.tasks.Task.TheVariants.{Answers};
ghost use Rattle.command_words.specs.Requests.{Simulate, Clock, Asks, IsCounted, HasBoard, simulator_word, is_simulator_word, clock_word, count_words};
ghost use Rattle.command_words.specs.Asked.{request_of};

use crate::commands::Command;
use crate::runs::{counted, run_names};
use engine_commands::Task;
use lisa_outcomes::RunNames;

// The task without a number.
fn answers_task(rest: &[String]) -> Option<Task>
    ensures found { IfSome result (λ t. (t ≡ Answers) × (map string_bytes rest.now ≡ [])) }
    ensures only { map string_bytes rest.now ≡ [] → result ≡ Some Answers }
{
    if rest.is_empty() {
        return Some(Task::Answers);
    }
    None
}

// What is to be done with a module's clock.
fn clock_task(command: &str, rest: &[String]) -> Option<Task>
    ensures found { IfSome result (λ t. (command.now ≡ clock_word t) × (map string_bytes rest.now ≡ count_words t) × IsCounted t) }
    ensures only { (t : TheTask) → command.now ≡ clock_word t → map string_bytes rest.now ≡ count_words t → IsCounted t → result ≡ Some t }
{
    match command {
        "clock" => {
            let edges = counted(rest, 1_000_000)?;
            Some(Task::State { edges })
        }
        "clocktrace" => {
            let edges = counted(rest, 10_000)?;
            Some(Task::Trace { edges })
        }
        "vvcd" => {
            let edges = counted(rest, 10_000)?;
            Some(Task::Waves { edges })
        }
        "vboard" => {
            let edges = counted(rest, 1_000_000)?;
            Some(Task::Board { edges })
        }
        "vdebug" => answers_task(rest),
        _ => None,
    }
}

// What is to be done with a description's simulator.
fn simulator_task(command: &str, rest: &[String]) -> Option<Task>
    ensures found { IfSome result (λ t. (command.now ≡ simulator_word t) × (map string_bytes rest.now ≡ count_words t) × IsCounted t) }
    ensures only { (t : TheTask) → command.now ≡ simulator_word t → map string_bytes rest.now ≡ count_words t → IsCounted t → result ≡ Some t }
{
    match command {
        "run" => {
            let edges = counted(rest, 1_000_000)?;
            Some(Task::State { edges })
        }
        "trace" => {
            let edges = counted(rest, 10_000)?;
            Some(Task::Trace { edges })
        }
        "vcd" => {
            let edges = counted(rest, 10_000)?;
            Some(Task::Waves { edges })
        }
        "board" => {
            let edges = counted(rest, 1_000_000)?;
            Some(Task::Board { edges })
        }
        "debug" => answers_task(rest),
        _ => None,
    }
}

// Whether a task's board isn't left out, where it has one.
fn has_board(task: Task, names: &RunNames<'_>) -> bool
    ensures { IsTrue result ↔ HasBoard task (names_of names.now) }
{
    match task {
        Task::Board { .. } => names.schedule.is_some(),
        _ => true,
    }
}

// The operands of a command over the simulator of a description.
fn simulator_command<'a>(command: &str, operands: &'a [String]) -> Option<Command<'a>>
    ensures found { IfSome result (λ c. Asks (command.now ∷ map string_bytes operands.now) (request_of c)) }
    ensures only { (task : TheTask) (names : TheNames) → Asks (command.now ∷ map string_bytes operands.now) (Simulate task names) → option_map request_of result ≡ Some (Simulate task names) }
{
    let [main, image, schedule, rest @ ..] = operands else {
        return None;
    };
    let names = run_names(main.as_str(), image.as_str(), schedule.as_str())?;
    let task = simulator_task(command, rest)?;
    if !has_board(task, &names) {
        return None;
    }
    Some(Command::Simulate { names, task })
}

// Whether the word is that of a command over the simulator of a description.
fn is_simulator_word(word: &str) -> bool
    ensures { result ≡ is_simulator_word word.now }
{
    word == "run" || word == "trace" || word == "vcd" || word == "board" || word == "debug"
}

// The operands of a command over the clock of a module.
fn clock_command<'a>(command: &str, operands: &'a [String]) -> Option<Command<'a>>
    ensures found { IfSome result (λ c. Asks (command.now ∷ map string_bytes operands.now) (request_of c)) }
    ensures only { (task : TheTask) (names : TheNames) → Asks (command.now ∷ map string_bytes operands.now) (Clock task names) → option_map request_of result ≡ Some (Clock task names) }
{
    let [main, image, schedule, rest @ ..] = operands else {
        return None;
    };
    let names = run_names(main.as_str(), image.as_str(), schedule.as_str())?;
    let task = clock_task(command, rest)?;
    if !has_board(task, &names) {
        return None;
    }
    Some(Command::Clock { names, task })
}

/// The operands of a command with a task.
pub fn task_command<'a>(command: &str, operands: &'a [String]) -> Option<Command<'a>>
    ensures found { IfSome result (λ c. Asks (command.now ∷ map string_bytes operands.now) (request_of c)) }
    ensures simulated { (task : TheTask) (names : TheNames) → Asks (command.now ∷ map string_bytes operands.now) (Simulate task names) → option_map request_of result ≡ Some (Simulate task names) }
    ensures clocked { (task : TheTask) (names : TheNames) → Asks (command.now ∷ map string_bytes operands.now) (Clock task names) → option_map request_of result ≡ Some (Clock task names) }
{
    if is_simulator_word(command) {
        simulator_command(command, operands)
    } else {
        clock_command(command, operands)
    }
}
