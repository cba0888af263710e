//! Register arrays and memories by their names.

ghost use Rattle.std.specs.Prelude.{◌≡◌, IfSome, option_map, slice_get, slice_index_or};
ghost use Rattle.lisa_engine.specs.declared.parts.ArrayItem.{ArrayItem};
ghost use Rattle.lisa_tree.specs.Descriptions.{resource_tree};
ghost use Rattle.lisa_meaning.specs.machine_parts.Parts.{arrays_of};
ghost use Rattle.lisa_meaning.specs.Values as values;
ghost use Rattle.lisa_meaning.specs.Values.{named_array};
ghost use Rattle.scene_paths.specs.Lookups.{tree_of, array_of, array_type};

use crate::array::{Array, ArrayType};
use crate::described::Described;
use lisa_tree::{Meaning, Resource};
use lisa_words::Name;

// The type and the depth of an array.
fn array_type(resource: &Resource) -> Option<ArrayType>
    ensures { result ≡ array_type (resource_tree resource.now) }
{
    match resource {
        Resource::Register(_, shape, _, Some(depth)) => Some(ArrayType {
            shape: *shape,
            depth: *depth,
        }),
        Resource::Memory(_, shape, _, depth) => Some(ArrayType {
            shape: *shape,
            depth: *depth,
        }),
        _ => None,
    }
}

impl<'a> Described<'a> {
    // The array of a number.
    fn array_at(&self, number: usize) -> Option<Array>
        ensures { option_map array_of result ≡ values.array_of (tree_of self.now) number (slice_get (tree_of self.now).resources number) }
    {
        self.accepted();
        match self.resource(number) {
            None => None,
            Some(resource) => match array_type(resource) {
                None => None,
                Some(own) => Some(Array {
                    place: self.before(number).arrays,
                    shape: own.shape,
                    depth: own.depth,
                }),
            },
        }
    }

    /// The array of a name in an operation.
    pub fn array(&self, operation: usize, name: &Name) -> Option<Array>
        ensures array { option_map array_of result ≡ named_array (tree_of self.now) operation name.now }

        // It is as wide as the machine shows it.
        ensures width { IfSome result (λ a. (item : ArrayItem) → (slice_index_or (arrays_of (tree_of self.now)) a.place item).width ≡ a.shape.width) }
    {
        match self.meaning(operation, name) {
            Meaning::Resource(number) => self.array_at(number),
            _ => None,
        }
    }
}
