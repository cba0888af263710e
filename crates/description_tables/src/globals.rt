//! The resources and the operations of a description in tables.

ghost use Rattle.std.specs.Prelude.{◌≡◌, ℕ, List, Option, Some, None, IfOk, OnOk, cond, map, option_map, position, slice_get};
ghost use Rattle.std.specs.Option.{option_or};
ghost use Rattle.name_tables.specs.TableViews.{value_of};
ghost use Rattle.lisa_tree.specs.declared.tokens.Shape.{Shape};
ghost use Rattle.lisa_tree.specs.declared.descriptions.Operation.{Operation};
ghost use Rattle.lisa_tree.specs.Descriptions.{DescriptionTree, description_tree, resource_tree, operation_tree};
ghost use Rattle.lisa_tree.specs.Same.{same_name};
ghost use Rattle.lisa_tree.specs.Resources.{is_named, resource_at, stages_in, stage_at, fields_in, fields as all_fields, field_shape};
ghost use Rattle.lisa_tree.specs.Operations.{number_of, operation_at, is_alias, own_stage};

use crate::places::place_of;
use lisa_tree::{Description, Operation, Resource, Shape};
use lisa_words::Name;
use name_tables::note_value;
use std::alloc::{AllocError, Global};
use std::collections::BTreeMap;

// The stages of the pipeline.
#[tactic(auto, using(crate::proofs::Lists::one_resource))]
fn pipeline_stages(resources: &[Resource]) -> &[Name]
    ensures { result.now ≡ stages_in (map resource_tree resources.now) }
{
    for resource in resources {
        if let Resource::Pipeline(_, stages) = resource {
            return stages;
        }
    }
    &[]
}

// The fields of the pipeline's boundaries.
#[tactic(auto, using(crate::proofs::Lists::one_resource))]
fn boundary_fields(resources: &[Resource]) -> &[(Shape, Name)]
    ensures { result.now ≡ fields_in (map resource_tree resources.now) }
{
    for resource in resources {
        if let Resource::Fields(_, fields) = resource {
            return fields;
        }
    }
    &[]
}

// Notes the name of a resource, if it has one.
fn enter_resource(
    table: &mut BTreeMap<Name, usize>,
    resource: &Resource,
    place: usize,
) -> Result<(), AllocError>
    ensures { OnOk result ((n : List ℕ) → value_of table.new n ≡ option_or (value_of table.old n) (cond (is_named n (resource_tree resource.now)) (Some place) None)) }
{
    match resource {
        Resource::Register(_, _, name, _) => {
            note_value(table, name, place)?;
            Ok(())
        }
        Resource::Clocked(_, _, name) => {
            note_value(table, name, place)?;
            Ok(())
        }
        Resource::Memory(_, _, name, _) => {
            note_value(table, name, place)?;
            Ok(())
        }
        Resource::Pin(_, name) => {
            note_value(table, name, place)?;
            Ok(())
        }
        Resource::Pipeline(name, _) => {
            note_value(table, name, place)?;
            Ok(())
        }
        Resource::Fields(_, _) => Ok(()),
    }
}

// Where the name of each resource stands first.
fn resource_places(
    alloc: Global,
    resources: &[Resource],
) -> Result<BTreeMap<Name, usize>, AllocError>
    ensures { IfOk result (λ table. (n : List ℕ) → value_of table n ≡ position (λ r. is_named n (resource_tree r)) resources.now) }
{
    let mut table = BTreeMap::new(alloc);
    for (place, resource) in resources.iter().enumerate() {
        enter_resource(&mut table, resource, place)?;
    }
    Ok(table)
}

// Where each stage stands first.
fn stage_places(alloc: Global, stages: &[Name]) -> Result<BTreeMap<Name, usize>, AllocError>
    ensures { IfOk result (λ table. (n : List ℕ) → value_of table n ≡ position (same_name n) stages.now) }
{
    let mut table = BTreeMap::new(alloc);
    for (place, stage) in stages.iter().enumerate() {
        note_value(&mut table, stage, place)?;
    }
    Ok(table)
}

// Where each field stands first.
fn field_places(
    alloc: Global,
    fields: &[(Shape, Name)],
) -> Result<BTreeMap<Name, usize>, AllocError>
    ensures { IfOk result (λ table. (n : List ℕ) → value_of table n ≡ position (λ (f : Shape × List ℕ). same_name n f.1) fields.now) }
{
    let mut table = BTreeMap::new(alloc);
    for (place, field) in fields.iter().enumerate() {
        note_value(&mut table, &field.1, place)?;
    }
    Ok(table)
}

// Where the name of each operation stands first.
fn operation_places(
    alloc: Global,
    operations: &[Operation],
) -> Result<BTreeMap<Name, usize>, AllocError>
    ensures { IfOk result (λ table. (n : List ℕ) → value_of table n ≡ position (λ (o : Operation). same_name n o.name) operations.now) }
{
    let mut table = BTreeMap::new(alloc);
    for (place, operation) in operations.iter().enumerate() {
        note_value(&mut table, &operation.name, place)?;
    }
    Ok(table)
}

// The operation of a number.
#[tactic(auto, using(crate::proofs::Lists::operation_read, crate::proofs::Lists::operation_past))]
fn operation_at(description: &Description, operation: usize) -> Option<&Operation>
    ensures { option_map (λ o. operation_tree o.now) result ≡ operation_at (description_tree description.now) operation }
{
    if operation < description.operations.len() {
        Some(&description.operations[operation])
    } else {
        None
    }
}

// The type of the field at a place.
#[tactic(auto, using(std::proofs::lemmas::Option::slice_get_read, std::proofs::lemmas::Option::slice_get_past))]
fn shape_at(fields: &[(Shape, Name)], place: usize) -> Option<Shape>
    ensures { result ≡ option_map (λ (f : Shape × List ℕ). f.0) (slice_get fields.now place) }
{
    if place < fields.len() {
        Some(fields[place].0)
    } else {
        None
    }
}

/// A description with the places of its resources, stages, fields and operations.
#[derive(Drop)]
pub(crate) struct Globals<'a> {
    pub description: &'a Description,
    resources: BTreeMap<Name, usize>,
    stages: BTreeMap<Name, usize>,
    boundary: &'a [(Shape, Name)],
    fields: BTreeMap<Name, usize>,
    operations: BTreeMap<Name, usize>,
    ghost of_resources: { (n : List ℕ) → value_of resources n ≡ resource_at (description_tree description.now) n },
    ghost of_stages: { (n : List ℕ) → value_of stages n ≡ stage_at (description_tree description.now) n },
    ghost of_boundary: { boundary.now ≡ all_fields (description_tree description.now) },
    ghost of_fields: { (n : List ℕ) → value_of fields n ≡ position (λ (f : Shape × List ℕ). same_name n f.1) (all_fields (description_tree description.now)) },
    ghost of_operations: { (n : List ℕ) → value_of operations n ≡ number_of (description_tree description.now) n },
}

impl<'a> Globals<'a> {
    pub(crate) fn make(
        alloc: Global,
        description: &'a Description,
    ) -> Result<Globals<'a>, AllocError>
        ensures { IfOk result (λ globals. globals.description.now ≡ description.now) }
    {
        let resources = resource_places(alloc, &description.resources)?;
        let stages = stage_places(alloc, pipeline_stages(&description.resources))?;
        let boundary = boundary_fields(&description.resources);
        let fields = field_places(alloc, boundary)?;
        let operations = operation_places(alloc, &description.operations)?;
        Ok(Globals {
            description,
            resources,
            stages,
            boundary,
            fields,
            operations,
        })
    }

    // The number of the operation of this name.
    pub(crate) fn number_of(&self, name: &Name) -> Option<usize>
        ensures { result ≡ number_of (description_tree self.now.description.now) name.now }
    {
        place_of(&self.operations, name)
    }

    // The number of the resource of this name.
    pub(crate) fn resource_at(&self, name: &Name) -> Option<usize>
        ensures { result ≡ resource_at (description_tree self.now.description.now) name.now }
    {
        place_of(&self.resources, name)
    }

    // The number of a stage of the pipeline.
    pub(crate) fn stage_at(&self, name: &Name) -> Option<usize>
        ensures { result ≡ stage_at (description_tree self.now.description.now) name.now }
    {
        place_of(&self.stages, name)
    }

    // The type of a field.
    pub(crate) fn field_shape(&self, name: &Name) -> Option<Shape>
        ensures { result ≡ field_shape (description_tree self.now.description.now) name.now }
    {
        match place_of(&self.fields, name) {
            Some(place) => shape_at(self.boundary, place),
            None => None,
        }
    }

    // Whether an operation is an alias.
    pub(crate) fn is_alias(&self, operation: usize) -> bool
        ensures { result ≡ is_alias (description_tree self.now.description.now) operation }
    {
        match operation_at(self.description, operation) {
            Some(found) => found.alias,
            None => false,
        }
    }

    // The number of the stage that an operation has of its own.
    pub(crate) fn own_stage(&self, operation: usize) -> Option<usize>
        ensures { result ≡ own_stage (description_tree self.now.description.now) operation }
    {
        match operation_at(self.description, operation) {
            Some(found) => match &found.stage {
                Some((_, stage)) => self.stage_at(stage),
                None => None,
            },
            None => None,
        }
    }
}
