//! What resources are used for.

ghost use Rattle.std.specs.Prelude.{◌≡◌, option_map, length, map};
ghost use Rattle.lisa_tree.specs.Descriptions.{resource_tree};
ghost use Rattle.lisa_tree.specs.Resources.{stages, stages_in};
ghost use Rattle.kind_checks.specs.Uses.{is_no_word, is_no_register, is_no_array};

use lisa_tree::{Names, Resource};

/// Whether a resource is an array or the pipeline.
pub(crate) fn is_no_word(resource: Option<&Resource>) -> bool
    ensures { result ≡ is_no_word (option_map (λ r. resource_tree r.now) resource.entry) }
{
    match resource {
        None
        | Some(Resource::Register(_, _, _, None))
        | Some(Resource::Clocked(_, _, _))
        | Some(Resource::Pin(_, _)) => false,
        Some(_) => true,
    }
}

/// Whether a resource is anything but a register that is no array.
pub(crate) fn is_no_register(resource: Option<&Resource>) -> bool
    ensures { result ≡ is_no_register (option_map (λ r. resource_tree r.now) resource.entry) }
{
    match resource {
        None | Some(Resource::Register(_, _, _, None)) | Some(Resource::Clocked(_, _, _)) => false,
        Some(_) => true,
    }
}

/// Whether a resource is anything but an array.
pub(crate) fn is_no_array(resource: Option<&Resource>) -> bool
    ensures { result ≡ is_no_array (option_map (λ r. resource_tree r.now) resource.entry) }
{
    match resource {
        None | Some(Resource::Register(_, _, _, Some(_))) | Some(Resource::Memory(_, _, _, _)) => {
            false
        }
        Some(_) => true,
    }
}

// How many stages the pipeline has.
#[tactic(auto, using(crate::proofs::OneMore::one_resource))]
fn stages_among(resources: &[Resource]) -> usize
    ensures { result ≡ length (stages_in (map resource_tree resources.now)) }
{
    for resource in resources {
        if let Resource::Pipeline(_, stages) = resource {
            return stages.len();
        }
    }
    0
}

/// How many stages the pipeline has; none without a pipeline.
pub(crate) fn stage_count<N: Names>(names: &N) -> usize
    ensures { result ≡ length (stages (N.tree names.now)) }
{
    stages_among(&names.description().resources)
}
