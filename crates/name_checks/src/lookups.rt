//! Look-ups of which the conditions are made.

ghost use Rattle.std.specs.Prelude.{◌≡◌, IfOk};
ghost use Rattle.lisa_tree.specs.Descriptions.{description_tree};
ghost use Rattle.lisa_tree.specs.Resources.{is_pipe_at, is_pipeline};
ghost use Rattle.lisa_tree.specs.Operations.{name_at};
ghost use Rattle.graph_paths.specs.Paths.{saw};
ghost use Rattle.name_checks.specs.Doubled.{earlier, is_taken};
ghost use Rattle.name_checks.specs.Unknown.{is_something, stands, is_known, is_stage, is_main};

use description_places::Scope;
use lisa_tree::{Description, Meaning, Names, Resource};
use lisa_words::{Name, NoMemory};
use std::alloc::Global;

/// The name of an operation, the empty one where there is none.
pub fn name_at(alloc: Global, description: &Description, operation: usize) -> Result<Name, NoMemory>
    ensures { IfOk result (λ name. name ≡ name_at (description_tree description.now) operation) }
{
    match description.operations.get(operation) {
        None => Ok(Name::from_vec(Vec::new(alloc))),
        Some(found) => Ok(found.name.clone()?),
    }
}

/// Whether the operation is `main`.
pub fn is_main(description: &Description, operation: usize) -> bool
    ensures { result ≡ is_main (description_tree description.now) operation }
{
    match description.operations.get(operation) {
        None => false,
        Some(found) => found.name.as_bytes() == b"main".as_slice(),
    }
}

fn is_pipe_at(description: &Description, number: usize) -> bool
    ensures { result ≡ is_pipe_at (description_tree description.now) number }
{
    matches!(
        description.resources.get(number),
        Some(Resource::Pipeline(_, _))
    )
}

/// Whether the name is that of a pipeline.
pub fn is_pipeline<N: Names>(names: &N, name: &Name) -> bool
    ensures { result ≡ is_pipeline (N.tree names.now) name.now }
{
    match names.resource_at(name) {
        None => false,
        Some(number) => is_pipe_at(names.description(), number),
    }
}

/// Whether the first thing of a name stands before a number.
pub fn is_earlier(first: Option<usize>, number: usize) -> bool
    ensures { result ≡ earlier first number }
{
    match first {
        None => false,
        Some(place) => place < number,
    }
}

/// Whether the name is a resource's or one that the operation declares.
pub fn stands<N: Names>(names: &N, operation: usize, name: &Name) -> bool
    ensures { result ≡ stands (N.tree names.now) operation name.now }
{
    match names.meaning(operation, name) {
        Meaning::Nothing => false,
        Meaning::Resource(_) | Meaning::Declared(_) => true,
    }
}

/// Whether the name is a local's or stands for something else.
pub fn is_known<N: Names>(names: &N, operation: usize, scope: &Scope, name: &Name) -> bool
    ensures { result ≡ is_known (N.tree names.now) operation scope.now name.now }
{
    scope.find(name).is_some() || stands(names, operation, name)
}

/// Whether the name is that of a local in scope, of what the operation declares or of a resource.
pub fn is_taken<N: Names>(names: &N, operation: usize, scope: &Scope, name: &Name) -> bool
    ensures { result ≡ is_taken (N.tree names.now) operation scope.now name.now }
{
    scope.find(name).is_some()
        || names.declared_at(operation, name).is_some()
        || names.resource_at(name).is_some()
}

/// Whether the name is that of a stage of the pipeline that is named.
pub fn is_stage<N: Names>(names: &N, pipe: &Name, stage: &Name) -> bool
    ensures { result ≡ is_stage (N.tree names.now) pipe.now stage.now }
{
    is_pipeline(names, pipe) && names.stage_at(stage).is_some()
}

/// A mark of a declared name, by a table. There is none past its end.
#[tactic(auto, using(graph_paths::proofs::Seen::saw_at, graph_paths::proofs::Seen::saw_past))]
pub fn mark_at(marks: &[bool], entry: usize) -> bool
    ensures { result ≡ saw marks.now entry }
{
    if entry < marks.len() {
        marks[entry]
    } else {
        false
    }
}
