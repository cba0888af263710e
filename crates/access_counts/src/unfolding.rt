//! How often unfolded texts read and write elements of each array.

ghost use Rattle.std.specs.Prelude.{◌≡◌, ◌<◌, ◌+◌, ℕ, IfOk, get_or, length};
ghost use Rattle.std.specs.Option.{option_map_or};
ghost use Rattle.lisa_tree.specs.Operations.{sections_at, behavior_in, activation_in};
ghost use Rattle.access_counts.specs.Accesses.{statements_accesses, items_accesses};
ghost use Rattle.access_counts.specs.Unfolded.{texts_accesses, text_accesses};
ghost use Rattle.access_counts.specs.Ledgers.{HasRoom, IsAdded, Gains, Prices, capped, worth, ledger_worth};
ghost use Rattle.access_counts.specs.Rounds.{Rates, AllBelow, access_of, texts_priced, bare};

use crate::activations::note_activation;
use crate::behaviors::note_behavior;
use crate::due::Choices;
use crate::ledger::{Ledger, zeros};
use crate::rounds::unfold;
use description_types::sections;
use lisa_tree::{Names, activation, behavior};
use lisa_words::NoMemory;
use std::alloc::Global;

// A ledger in which nothing is noted.
fn no_uses<N: Names>(alloc: Global, names: &N) -> Result<Ledger, NoMemory>
    ensures room { IfOk result (HasRoom (N.tree names.now)) }
    ensures nothing { IfOk result (λ ledger. (p : Prices) → ledger_worth p ledger ≡ 0) }
{
    let resources = names.description().resources.len();
    let entries = names.entry_count();
    let reads = zeros(alloc, resources)?;
    let writes = zeros(alloc, resources)?;
    let values = zeros(alloc, entries)?;
    let places = zeros(alloc, entries)?;
    let runs = zeros(alloc, entries)?;
    Ok(Ledger {
        reads,
        writes,
        values,
        places,
        runs,
    })
}

// Notes what the behaviour and the activation of an operation do that stand there so many times.
fn note_texts<N: Names>(names: &N, operation: usize, times: u64, ledger: &mut Ledger)
    requires { HasRoom (N.tree names.now) ledger.old }
    ensures { IsAdded (N.tree names.now) operation ledger.old ledger.new times (λ a names'. texts_accesses a names' (sections_at (N.tree names.now) operation)) }
{
    let sections = sections(names, operation);
    if let Some(all) = behavior(sections) {
        note_behavior(names, operation, times, all, ledger);
    }
    if let Some(all) = activation(sections) {
        note_activation(names, operation, times, all, ledger);
    }
}

// The same of all operations.
fn note_all_texts<N: Names>(names: &N, times: &[u64], ledger: &mut Ledger)
    requires { HasRoom (N.tree names.now) ledger.old }
    ensures room { HasRoom (N.tree names.now) ledger.new }
    ensures more { (p : Prices) → Gains (ledger_worth p ledger.old) (worth (texts_priced (N.tree names.now) p) times.now) (ledger_worth p ledger.new) }
{
    for operation in 0..times.len() {
        note_texts(names, operation, times[operation], ledger);
    }
}

/// How often elements of each array are read and written by the unfolded behaviours and activations of operations, where each operation's
/// stand there so many times. Names are unfolded so many levels deep. From 2^64 - 1 on counts stay there.
///
/// The time is in proportion to the unfolded text, beside the declared names at each level.
pub fn count_accesses<N: Names, C: Choices>(
    alloc: Global,
    names: &N,
    choices: &C,
    levels: usize,
    times: &[u64],
) -> Result<Ledger, NoMemory>
    requires { AllBelow (length (N.tree names.now).operations) (C.chosen choices.now) }
    ensures room { IfOk result (HasRoom (N.tree names.now)) }
    ensures exact { IfOk result (λ ledger. (rates : Rates) → capped (ledger_worth (bare rates) ledger) ≡ capped (worth (text_accesses levels (N.tree names.now) (C.chosen choices.now) (access_of (N.tree names.now) rates)) times.now)) }
{
    let mut start = no_uses(alloc, names)?;
    note_all_texts(names, times, &mut start);
    let ledger = unfold(alloc, names, choices, levels, start)?;
    Ok(ledger)
}
