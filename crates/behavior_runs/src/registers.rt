// Registers that are no arrays.
ghost use Rattle.std.specs.Prelude.{◌≡◌, IfSome, slice_get, slice_index_or};
ghost use Rattle.lisa_engine.specs.declared.parts.Item.{Item};
ghost use Rattle.lisa_tree.specs.Descriptions.{resource_tree};
ghost use Rattle.moment_stores.specs.machine_parts.Parts.{registers_of};
ghost use Rattle.scene_paths.specs.lisa_meaning.Moments.{Moment};
ghost use Rattle.scene_paths.specs.lisa_meaning.Effects.{Given, resource_put};
ghost use Rattle.scene_paths.specs.Lookups.{tree_of};
ghost use Rattle.behavior_runs.specs.Registers.{put_in, register_shape};

use crate::register::Register;
use lisa_tree::{Resource, Shape};
use scene_paths::Described;

// The type of a register that is no array.
fn register_shape(resource: &Resource) -> Option<Shape>
    ensures { result ≡ register_shape (resource_tree resource.now) }
{
    match resource {
        Resource::Register(_, shape, _, None) => Some(*shape),
        Resource::Clocked(_, shape, _) => Some(*shape),
        _ => None,
    }
}

/// The register of a number among the resources.
pub(crate) fn register_at(described: &Described<'_>, number: usize) -> Option<Register>
    ensures put { (given : Given) (m : Moment) → resource_put (tree_of described.now) number (slice_get (tree_of described.now).resources number) given m ≡ put_in result given m }

    // It is as wide as the machine shows it.
    ensures width { IfSome result (λ r. (item : Item) → (slice_index_or (registers_of (tree_of described.now)) r.place item).width ≡ r.shape.width) }
{
    described.accepted();
    match described.resource(number) {
        None => None,
        Some(resource) => match register_shape(resource) {
            None => None,
            Some(shape) => Some(Register {
                place: described.before(number).registers,
                shape,
            }),
        },
    }
}
