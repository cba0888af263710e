//! The memory of a program.

ghost use Rattle.std.specs.Prelude.{◌≡◌, map, option_copied};
ghost use Rattle.lisa_tree.specs.Descriptions.{resource_tree};
ghost use Rattle.generated_programs.specs.Memories.{memory_name, first_memory};

use lisa_tree::Resource;
use lisa_words::Name;

// The name of a memory of this width.
fn memory_name(resource: &Resource, width: u32) -> Option<&Name>
    ensures { option_copied result ≡ memory_name width (resource_tree resource.now) }
{
    match resource {
        Resource::Memory(_, shape, name, _) if shape.width == width => Some(name),
        _ => None,
    }
}

/// The name of the first memory of this width.
pub(crate) fn first_memory(resources: &[Resource], width: u32) -> Option<&Name>
    ensures { option_copied result ≡ first_memory width (map resource_tree resources.now) }
{
    for resource in resources {
        if let Some(name) = memory_name(resource, width) {
            return Some(name);
        }
    }
    None
}
