//! Digests of texts, and of the states of engines.
ghost use Rattle.std.specs.Prelude.{◌≡◌, [], List, ℕ, Some, Err, IfOk};
ghost use Rattle.sha2.specs.Sha256.{sha256};
ghost use Rattle.lisa_engine.specs.declared.image.MakeFault.TheVariants as makes;
ghost use Rattle.lisa_engine.specs.Machines.{Machine};
ghost use Rattle.lisa_engine.specs.PinValues.{IsFor};
ghost use Rattle.generator_commands.specs.Reports.{final_text};

use engine_commands::{put_state, schedule_for};
use lisa_engine::{Engine, Item, MakeFault, Schedule};
use lisa_io::{Failed, Sink};
use lisa_words::NoMemory;
use sha2::{Digest, Sha256};
use std::alloc::Global;

/// The SHA-256 digest of a text.
pub fn digest_of(text: &[u8]) -> [u8; 32]
    ensures { result ≡ sha256 text.now }
{
    let mut hasher = Sha256::new();
    hasher.update(text);
    hasher.finalize()
}

// A sink that keeps what is put. It fails where memory is wanted.
#[derive(Drop)]
struct Kept {
    text: Vec<u8>,
    faults: u64,
}

impl Sink for Kept {
    ghost written = { λ kept. Some kept.text.items };

    ghost faults = { λ kept. kept.faults };

    fn put(&mut self, piece: &[u8]) -> Result<usize, Failed> {
        if piece.is_empty() {
            return Ok(0);
        }
        match self.text.extend_from_slice(piece) {
            Ok(()) => Ok(piece.len()),
            Err(_) => {
                self.faults = self.faults.saturating_add(1);
                Err(Failed)
            }
        }
    }
}

// The schedule without lines, by which all pins are 0 in each edge.
fn quiet_schedule(alloc: Global, pins: &[Item]) -> Result<Schedule, NoMemory>
    ensures lines { IfOk result (λ lines. lines ≡ []) }
    ensures fits { IfOk result (IsFor pins.now) }
{
    match schedule_for(alloc, &[], pins) {
        Ok(schedule) => Ok(schedule),
        Err(_) => Err(NoMemory),
    }
}

// The text of an engine's state after some edges of a schedule.
fn keep_state<E: Engine>(
    alloc: Global,
    engine: &mut E,
    schedule: &Schedule,
    edges: u32,
) -> Result<Kept, NoMemory>
    requires first { E.present engine.old ≡ (E.machine engine.old).defined [] }
    requires fits { IsFor (E.machine engine.old).pins schedule.now }
    ensures { schedule.now ≡ [] → IfOk result (λ kept. kept.text.items ≡ final_text (E.machine engine.old) edges) }
{
    let text = Vec::new(alloc);
    let mut kept = Kept { text, faults: 0 };
    match put_state(alloc, engine, schedule, edges, &mut kept) {
        Ok(()) => Ok(kept),
        Err(_) => Err(NoMemory),
    }
}

/// The digest of the text of an engine's state after some edges in which all pins are 0.
pub fn state_digest<E: Engine>(
    alloc: Global,
    engine: &mut E,
    edges: u32,
) -> Result<[u8; 32], NoMemory>
    requires { E.present engine.old ≡ (E.machine engine.old).defined [] }
    ensures { IfOk result (λ digest. digest ≡ sha256 (final_text (E.machine engine.old) edges)) }
{
    let schedule = quiet_schedule(alloc, engine.pins())?;
    let kept = keep_state(alloc, engine, &schedule, edges)?;
    Ok(digest_of(&kept.text))
}

/// The digest of the text of the state of an engine that was made, after some edges in which all pins are 0. No memory was missing.
pub fn made_digest<E: Engine + Drop>(
    alloc: Global,
    made: Result<E, MakeFault>,
    edges: u32,
) -> Result<[u8; 32], NoMemory>
    requires first { IfOk made (λ e. E.present e ≡ (E.machine e).defined []) }
    requires there { (name : List ℕ) → made ≡ Err (makes.NoSuchMemory name) → ⊥ }
    ensures { (machine : Machine) → IfOk made (λ e. E.machine e ≡ machine)
        → IfOk result (λ digest. digest ≡ sha256 (final_text machine edges)) }
{
    match made {
        Ok(mut engine) => state_digest(alloc, &mut engine, edges),
        Err(MakeFault::NoSuchMemory { .. }) => unreachable!(),
        Err(MakeFault::NoMemory) => Err(NoMemory),
    }
}
