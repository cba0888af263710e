//! The fields of the boundaries of the pipeline.

ghost use Rattle.std.specs.Prelude.{◌≡◌, ℕ, List, IfOk, map, option_map, position, slice_get};
ghost use Rattle.lisa_tree.specs.declared.tokens.Shape.{Shape};
ghost use Rattle.lisa_tree.specs.Descriptions.{resource_tree};
ghost use Rattle.lisa_tree.specs.Same.{same_name};
ghost use Rattle.lisa_tree.specs.Resources.{fields_in};
ghost use Rattle.noted_names.specs.Places.{place_of};

use lisa_tree::{Resource, Shape};
use lisa_words::Name;
use noted_names::PlaceTable;
use std::alloc::{AllocError, Global};

/// The fields, in order.
#[tactic(auto, using(description_tables::proofs::Lists::one_resource))]
pub(crate) fn boundary_fields(resources: &[Resource]) -> &[(Shape, Name)]
    ensures { result.now ≡ fields_in (map resource_tree resources.now) }
{
    for resource in resources {
        if let Resource::Fields(_, fields) = resource {
            return fields;
        }
    }
    &[]
}

/// Where each field stands, by its name.
pub(crate) fn field_places(
    alloc: Global,
    fields: &[(Shape, Name)],
) -> Result<PlaceTable, AllocError>
    ensures { IfOk result (λ table. (n : List ℕ) → place_of table.memo n ≡ position (λ (f : Shape × List ℕ). same_name n f.1) fields.now) }
{
    let mut table = PlaceTable::new(alloc, fields.len())?;
    for (place, field) in fields.iter().enumerate() {
        table.note(&field.1, place)?;
    }
    Ok(table)
}

/// The type of a field by its place.
#[tactic(auto, using(std::proofs::lemmas::Option::slice_get_read, std::proofs::lemmas::Option::slice_get_past))]
pub(crate) fn shape_at(fields: &[(Shape, Name)], place: usize) -> Option<Shape>
    ensures { result ≡ option_map (λ (f : Shape × List ℕ). f.0) (slice_get fields.now place) }
{
    if place < fields.len() {
        Some(fields[place].0)
    } else {
        None
    }
}
