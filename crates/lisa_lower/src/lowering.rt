//! The step program of a description that isn't too heavy.

ghost use Rattle.std.specs.Prelude.{◌≡◌, ◌⊎◌, ◌<◌, ◌≤◌, IfOk, IfErr};
ghost use Rattle.lisa_tree.specs.Descriptions.{description_tree};
ghost use Rattle.module_sizes.specs.lisa_forms.Parts.{AreFormsOf};
ghost use Rattle.module_sizes.specs.lisa_forms.Codings.{IsCodingOf};
ghost use Rattle.step_program.specs.Programs.{program_tree};
ghost use Rattle.module_sizes.specs.description_weight.Weights.{weight as weight_of};
ghost use Rattle.module_sizes.specs.access_counts.Ledgers.{capped};
ghost use Rattle.step_program.specs.declared.faults.LowerFault.TheVariants as faults;
ghost use Rattle.lisa_lower.specs.Heavy.{weight_limit, IsTooHeavy};
ghost use Rattle.lisa_lower.specs.Lowered.{IsLowered};

use lisa_forms::{Coding, Forms};
use lisa_words::{Name, NoMemory};
use module_sizes::laws::modules_are_small;
use module_sizes::{
    Machine, lower_edges, programs_are_formed, programs_make_edges, programs_show_states,
    shown_is_declared, weigh,
};
use spelled_meanings::laws::{spelled_numbers_are_low, spelled_roots_have_places};
use std::alloc::Global;
use step_program::{LowerFault, StepProgram};

const WEIGHT_LIMIT: u64 = 50_000;

// The fault of a description that has this weight.
fn too_heavy(alloc: Global, machine: &Machine, weight: u64) -> LowerFault
    requires heavy { weight_limit < weight }
    requires weight { weight ≡ capped (weight_of (description_tree machine.now)) }
    ensures { (result ≡ faults.NoMemory) ⊎ IsTooHeavy (description_tree machine.now) result }
{
    match Name::from_bytes(alloc, b"weight") {
        Ok(what) => LowerFault::TooMany {
            what,
            count: weight,
            limit: WEIGHT_LIMIT,
        },
        Err(_) => LowerFault::NoMemory,
    }
}

// The step program of a description that is light.
fn lower_light(
    alloc: Global,
    machine: &Machine,
    forms: &Forms,
    coding: &Coding,
) -> Result<StepProgram, NoMemory>
    requires forms { AreFormsOf (description_tree machine.now) forms.now }
    requires coding { IsCodingOf (description_tree machine.now) coding.now }
    requires light { weight_of (description_tree machine.now) ≤ weight_limit }
    ensures { IfOk result (λ p. IsLowered (description_tree machine.now) forms.now.width (program_tree p)) }
{
    machine.accepted();
    spelled_numbers_are_low();
    spelled_roots_have_places();
    shown_is_declared();
    programs_make_edges();
    programs_show_states();
    programs_are_formed();
    modules_are_small();
    lower_edges(alloc, machine, forms, coding)
}

/// The step program whose states are those of an accepted description, where its weight is at most 50,000. A heavier one is refused before
/// anything of it is unfolded.
pub fn lower(
    alloc: Global,
    machine: &Machine,
    forms: &Forms,
    coding: &Coding,
) -> Result<StepProgram, LowerFault>
    requires forms { AreFormsOf (description_tree machine.now) forms.now }
    requires coding { IsCodingOf (description_tree machine.now) coding.now }
    ensures lowered { IfOk result (λ p. IsLowered (description_tree machine.now) forms.now.width (program_tree p)) }
    ensures fault { IfErr result (λ f. (f ≡ faults.NoMemory) ⊎ IsTooHeavy (description_tree machine.now) f) }
{
    let weight = match weigh(alloc, machine, forms) {
        Ok(weight) => weight,
        Err(_) => return Err(LowerFault::NoMemory),
    };
    if weight > WEIGHT_LIMIT {
        return Err(too_heavy(alloc, machine, weight));
    }
    match lower_light(alloc, machine, forms, coding) {
        Ok(program) => Ok(program),
        Err(_) => Err(LowerFault::NoMemory),
    }
}
