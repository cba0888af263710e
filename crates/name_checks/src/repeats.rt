//! What stands again in a list.

ghost use Rattle.std.specs.Prelude.{◌≡◌, [], ◌∷◌, ◌++◌, false, take, map, option_copied, IfOk, length};
ghost use Rattle.std.specs.List.{list_any};
ghost use Rattle.lisa_tree.specs.Descriptions.{resource_tree, section_tree};
ghost use Rattle.lisa_tree.specs.Same.{same_name};
ghost use Rattle.lisa_tree.specs.Resources.{is_pipe};
ghost use Rattle.name_checks.specs.Doubled.{again_in, field_names, is_fields, is_of, list_fault};

use description_places::Region;
use lisa_tree::{DescFault, Resource, Section, Shape};
use lisa_words::{Name, NoMemory};
use name_tables::NameSet;
use std::alloc::Global;

// Whether the name is there already; otherwise it is put in.
fn is_again(seen: &mut NameSet, name: &Name) -> Result<bool, NoMemory>
    ensures again { IfOk result (λ again. again ≡ list_any (same_name name.now) seen.old.keys.items) }
    ensures seen { IfOk result (λ again. again ≡ false → seen.new.keys.items ≡ seen.old.keys.items ++ name.now ∷ []) }
{
    if seen.contains(name) {
        return Ok(true);
    }
    seen.insert(name)?;
    Ok(false)
}

// The first name that an earlier one equals.
#[tactic(auto, using(crate::proofs::Again::again_here, crate::proofs::Again::again_past))]
fn first_again<'a>(alloc: Global, names: &'a [Name]) -> Result<Option<&'a Name>, NoMemory>
    ensures { IfOk result (λ found. option_copied found ≡ again_in [] names.now) }
{
    let mut seen = NameSet::new(alloc);
    for name in names {
        if is_again(&mut seen, name)? {
            return Ok(Some(name));
        }
    }
    Ok(None)
}

// The same among fields.
#[tactic(auto, using(crate::proofs::Again::field_here, crate::proofs::Again::field_past))]
fn first_field_again<'a>(
    alloc: Global,
    fields: &'a [(Shape, Name)],
) -> Result<Option<&'a Name>, NoMemory>
    ensures { IfOk result (λ found. option_copied found ≡ again_in [] (field_names fields.now)) }
{
    let mut seen = NameSet::new(alloc);
    for (_, name) in fields {
        if is_again(&mut seen, name)? {
            return Ok(Some(name));
        }
    }
    Ok(None)
}

/// So many of the first elements, or all of them.
pub fn front<T>(all: &[T], count: usize) -> &[T]
    ensures { result.now ≡ take count all.now }
{
    &all[..count.min(all.len())]
}

/// Whether a resource is a pipeline.
pub fn has_pipe(resources: &[Resource]) -> bool
    ensures { result ≡ list_any is_pipe (map resource_tree resources.now) }
{
    for resource in resources {
        if matches!(resource, Resource::Pipeline(_, _)) {
            return true;
        }
    }
    false
}

/// Whether a resource has the fields of boundaries.
pub fn has_fields(resources: &[Resource]) -> bool
    ensures { result ≡ list_any is_fields (map resource_tree resources.now) }
{
    for resource in resources {
        if matches!(resource, Resource::Fields(_, _)) {
            return true;
        }
    }
    false
}

fn is_of(region: Region, section: &Section) -> bool
    ensures { result ≡ is_of region (section_tree section.now) }
{
    match section {
        Section::Declare(_) => matches!(region, Region::Declares),
        Section::Coding(_) => matches!(region, Region::Coding),
        Section::Syntax(_) => matches!(region, Region::Syntax),
        Section::Behavior(_) => matches!(region, Region::Behavior),
        Section::Expression(_) => matches!(region, Region::Expression),
        Section::Activation(_) => matches!(region, Region::Activation),
    }
}

/// Whether a section is of this region.
pub fn has_section(region: Region, sections: &[Section]) -> bool
    ensures { result ≡ list_any (is_of region) (map section_tree sections.now) }
{
    for section in sections {
        if is_of(region, section) {
            return true;
        }
    }
    false
}

/// The fault of the first name that an earlier one equals.
pub fn list_fault(alloc: Global, names: &[Name]) -> Result<Option<DescFault>, NoMemory>
    ensures { IfOk result (λ found. found ≡ list_fault names.now) }
{
    match first_again(alloc, names)? {
        None => Ok(None),
        Some(name) => Ok(Some(DescFault::Duplicate {
            name: name.clone()?,
        })),
    }
}

/// The fault of the first field whose name an earlier one has.
pub fn fields_fault(alloc: Global, fields: &[(Shape, Name)]) -> Result<Option<DescFault>, NoMemory>
    ensures { IfOk result (λ found. found ≡ list_fault (field_names fields.now)) }
{
    match first_field_again(alloc, fields)? {
        None => Ok(None),
        Some(name) => Ok(Some(DescFault::Duplicate {
            name: name.clone()?,
        })),
    }
}
