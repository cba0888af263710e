//! Names that stand for nothing.

ghost use Rattle.std.specs.Prelude.{◌≡◌, ◌||◌, ◌&&◌, IfOk, nat_eq, length};
ghost use Rattle.lisa_tree.specs.Expressions.{expr_tree};
ghost use Rattle.lisa_tree.specs.Statements.{head_tree};
ghost use Rattle.lisa_tree.specs.Descriptions.{resource_tree, operation_tree};
ghost use Rattle.lisa_tree.specs.Operations.{name_at};
ghost use Rattle.lisa_tree.specs.Declarations.{declared_at, what_at, is_reference, above};
ghost use Rattle.graph_paths.specs.Paths.{saw};
ghost use Rattle.name_checks.specs.Marks.{AreLacking};
ghost use Rattle.name_checks.specs.Unknown.{unknown_fault, pipe_unknown, resource_unknown, head_unknown, operation_unknown, alternatives_unknown, is_main, is_loose, what_of, reference_unknown, part_unknown, register_unknown, root_unknown, name_unknown, field_unknown, stage_unknown, control_unknown, behind_unknown, boundary_unknown, counter_unknown, stands, unknown};

use crate::lookups::{is_known, is_main, is_stage, mark_at, name_at, stands};
use description_places::{Condition, Region, Scope, Site};
use lisa_tree::{BoundaryField, DescFault, Expr, ForHead, Names, Operation, Resource, What};
use lisa_words::{Name, NoMemory};
use std::alloc::Global;

/// The condition that each name stands for something where it is used, and that each operation above a reference has its name.
#[derive(Drop)]
pub struct Unknown<'a, N: Names> {
    pub alloc: Global,
    pub names: &'a N,
    /// Which references have a name that some operation above their own lacks.
    pub lacking: &'a [bool],
    ghost exact: { AreLacking (N.tree names.now) lacking.now },
}

// The fault of a name in an operation that is named, unless it was found.
fn unknown_in(operation: &Name, found: bool, name: &Name) -> Result<Option<DescFault>, NoMemory>
    ensures { IfOk result (λ fault. fault ≡ unknown_fault operation.now found name.now) }
{
    if found {
        return Ok(None);
    }
    let operation = operation.clone()?;
    let name = name.clone()?;
    Ok(Some(DescFault::Unknown { operation, name }))
}

// Whether a declared name is a reference.
fn is_reference<N: Names>(names: &N, entry: usize) -> bool
    ensures { result ≡ is_reference (what_at (N.tree names.now) entry) }
{
    matches!(names.what_at(entry), Some(What::Reference))
}

// Whether nothing stands above the operation that declares a name, or the name is marked.
fn is_marked_loose<N: Names>(names: &N, lacking: &[bool], operation: usize, entry: usize) -> bool
    ensures { result ≡ (is_main (N.tree names.now) operation || nat_eq (length (above (N.tree names.now) operation)) 0 || saw lacking.now entry) }
{
    is_main(names.description(), operation)
        || names.above(operation).is_empty()
        || mark_at(lacking, entry)
}

fn are_both(one: bool, other: bool) -> bool
    ensures { result ≡ (one && other) }
{
    one && other
}

// Whether the name that an operation declares is a reference that has not its name in each operation above its own.
fn is_loose<N: Names>(names: &N, lacking: &[bool], operation: usize, name: &Name) -> bool
    requires { AreLacking (N.tree names.now) lacking.now }
    ensures { result ≡ (is_reference (what_of (N.tree names.now) (declared_at (N.tree names.now) operation name.now)) && is_loose (N.tree names.now) operation name.now) }
{
    match names.declared_at(operation, name) {
        None => false,
        Some(entry) => are_both(
            is_reference(names, entry),
            is_marked_loose(names, lacking, operation, entry),
        ),
    }
}

impl<'a, N: Names> Unknown<'a, N> {
    // The fault of a name in an operation of a number, unless it was found.
    fn fault(
        &self,
        operation: usize,
        found: bool,
        name: &Name,
    ) -> Result<Option<DescFault>, NoMemory>
        ensures { IfOk result (λ fault. fault ≡ unknown_fault (name_at (N.tree self.now.names.now) operation) found name.now) }
    {
        if found {
            return Ok(None);
        }
        let operation = name_at(self.alloc, self.names.description(), operation)?;
        let name = name.clone()?;
        Ok(Some(DescFault::Unknown { operation, name }))
    }

    // The fault of a name among the resources that is no resource.
    fn pipe(&self, name: &Name) -> Result<Option<DescFault>, NoMemory>
        ensures { IfOk result (λ fault. fault ≡ pipe_unknown (N.tree self.now.names.now) name.now) }
    {
        let nowhere = Name::from_vec(Vec::new(self.alloc));
        let found = self.names.resource_at(name).is_some();
        unknown_in(&nowhere, found, name)
    }

    // The fault of fields of boundaries of what is no resource.
    fn resource(&self, resource: &Resource) -> Result<Option<DescFault>, NoMemory>
        ensures { IfOk result (λ fault. fault ≡ resource_unknown (N.tree self.now.names.now) (resource_tree resource.now)) }
    {
        match resource {
            Resource::Fields(pipe, _) => {
                let fault = self.pipe(pipe)?;
                Ok(fault)
            }
            _ => Ok(None),
        }
    }

    // The fault of an operation's pipeline and stage.
    fn head(&self, head: &Operation) -> Result<Option<DescFault>, NoMemory>
        ensures { IfOk result (λ fault. fault ≡ head_unknown (N.tree self.now.names.now) (operation_tree head.now).name (operation_tree head.now).stage) }
    {
        let Some((pipe, stage)) = &head.stage else {
            return Ok(None);
        };
        match unknown_in(&head.name, self.names.resource_at(pipe).is_some(), pipe) {
            Ok(None) => unknown_in(&head.name, is_stage(self.names, pipe, stage), stage),
            found => found,
        }
    }

    // The fault of a reference.
    fn declared(&self, operation: usize, name: &Name) -> Result<Option<DescFault>, NoMemory>
        ensures { IfOk result (λ fault. fault ≡ reference_unknown (N.tree self.now.names.now) operation name.now) }
    {
        let loose = is_loose(self.names, self.lacking, operation, name);
        self.fault(operation, !loose, name)
    }

    // The fault of the first alternative that is no operation.
    fn alternatives(&self, operation: usize, all: &[Name]) -> Result<Option<DescFault>, NoMemory>
        ensures { IfOk result (λ fault. fault ≡ alternatives_unknown (N.tree self.now.names.now) operation all.now) }
    {
        for name in all {
            let fault = self.operation(operation, name)?;
            if fault.is_some() {
                return Ok(fault);
            }
        }
        Ok(None)
    }

    // The fault of a name that is no operation.
    fn operation(&self, operation: usize, name: &Name) -> Result<Option<DescFault>, NoMemory>
        ensures { IfOk result (λ fault. fault ≡ operation_unknown (N.tree self.now.names.now) operation name.now) }
    {
        let found = self.names.number_of(name).is_some();
        self.fault(operation, found, name)
    }

    // The fault of a name in a coding or a syntax.
    fn part(&self, operation: usize, name: &Name) -> Result<Option<DescFault>, NoMemory>
        ensures { IfOk result (λ fault. fault ≡ part_unknown (N.tree self.now.names.now) operation name.now) }
    {
        let found = stands(self.names, operation, name);
        self.fault(operation, found, name)
    }

    // The fault of a root's register.
    fn register(&self, operation: usize, register: &Expr) -> Result<Option<DescFault>, NoMemory>
        ensures { IfOk result (λ fault. fault ≡ register_unknown (N.tree self.now.names.now) operation (expr_tree register.now)) }
    {
        match register {
            Expr::Named(name) => self.part(operation, name),
            Expr::Input(field) => self.field(operation, field),
            _ => Ok(None),
        }
    }

    // The fault of a root's register, or of its group.
    fn root(
        &self,
        operation: usize,
        register: &Expr,
        group: &Name,
    ) -> Result<Option<DescFault>, NoMemory>
        ensures { IfOk result (λ fault. fault ≡ root_unknown (N.tree self.now.names.now) operation (expr_tree register.now) group.now) }
    {
        match self.register(operation, register) {
            Ok(None) => self.part(operation, group),
            found => found,
        }
    }

    // The fault of a name that is looked up among the locals too.
    fn name(
        &self,
        operation: usize,
        scope: &Scope,
        name: &Name,
    ) -> Result<Option<DescFault>, NoMemory>
        ensures { IfOk result (λ fault. fault ≡ name_unknown (N.tree self.now.names.now) operation scope.now name.now) }
    {
        let found = is_known(self.names, operation, scope, name);
        self.fault(operation, found, name)
    }

    // The fault of a field of the pipeline's boundaries.
    fn field(&self, operation: usize, field: &Name) -> Result<Option<DescFault>, NoMemory>
        ensures { IfOk result (λ fault. fault ≡ field_unknown (N.tree self.now.names.now) operation field.now) }
    {
        let found = self.names.field_shape(field).is_some();
        self.fault(operation, found, field)
    }

    // The fault of a stage of the pipeline that is named.
    fn stage(
        &self,
        operation: usize,
        pipe: &Name,
        stage: &Name,
    ) -> Result<Option<DescFault>, NoMemory>
        ensures { IfOk result (λ fault. fault ≡ stage_unknown (N.tree self.now.names.now) operation pipe.now stage.now) }
    {
        let found = is_stage(self.names, pipe, stage);
        self.fault(operation, found, stage)
    }

    // The fault of a pipeline and its stage.
    fn control(
        &self,
        operation: usize,
        scope: &Scope,
        pipe: &Name,
        stage: &Name,
    ) -> Result<Option<DescFault>, NoMemory>
        ensures { IfOk result (λ fault. fault ≡ control_unknown (N.tree self.now.names.now) operation scope.now pipe.now stage.now) }
    {
        match self.name(operation, scope, pipe) {
            Ok(None) => self.stage(operation, pipe, stage),
            found => found,
        }
    }

    // The fault of the stage behind a boundary, or of its field.
    fn behind(
        &self,
        operation: usize,
        boundary: &BoundaryField,
    ) -> Result<Option<DescFault>, NoMemory>
        ensures { IfOk result (λ fault. fault ≡ behind_unknown (N.tree self.now.names.now) operation boundary.now.pipe boundary.now.after boundary.now.field) }
    {
        match self.stage(operation, &boundary.pipe, &boundary.after) {
            Ok(None) => self.field(operation, &boundary.field),
            found => found,
        }
    }

    // The first fault of a boundary's names.
    fn boundary(
        &self,
        operation: usize,
        scope: &Scope,
        boundary: &BoundaryField,
    ) -> Result<Option<DescFault>, NoMemory>
        ensures { IfOk result (λ fault. fault ≡ boundary_unknown (N.tree self.now.names.now) operation scope.now boundary.now.pipe boundary.now.before boundary.now.after boundary.now.field) }
    {
        match self.control(operation, scope, &boundary.pipe, &boundary.before) {
            Ok(None) => self.behind(operation, boundary),
            found => found,
        }
    }

    // The fault of a loop's variable, which is looked up where the head gives it no type.
    fn counter(
        &self,
        operation: usize,
        scope: &Scope,
        head: &ForHead,
    ) -> Result<Option<DescFault>, NoMemory>
        ensures { IfOk result (λ fault. fault ≡ counter_unknown (N.tree self.now.names.now) operation scope.now (head_tree head.now).shape (head_tree head.now).name) }
    {
        if head.shape.is_some() {
            return Ok(None);
        }
        self.name(operation, scope, &head.name)
    }
}

impl<'a, N: Names> Condition for Unknown<'a, N> {
    ghost breaks = { λ c. unknown (N.tree c.names.now) };

    fn test(
        &self,
        operation: usize,
        _region: Region,
        scope: &Scope,
        site: Site<'_>,
    ) -> Result<Option<DescFault>, NoMemory> {
        match site {
            Site::Resource(_, resource) => {
                let fault = self.resource(resource)?;
                Ok(fault)
            }
            Site::Head(head) => {
                let fault = self.head(head)?;
                Ok(fault)
            }
            Site::Declared(_, name) => {
                let fault = self.declared(operation, name)?;
                Ok(fault)
            }
            Site::Alternatives(all) => {
                let fault = self.alternatives(operation, all)?;
                Ok(fault)
            }
            Site::Stands(name) => {
                let fault = self.operation(operation, name)?;
                Ok(fault)
            }
            Site::Root(register, group) => {
                let fault = self.root(operation, register, group)?;
                Ok(fault)
            }
            Site::Field(name, _)
            | Site::Operand(name)
            | Site::Number(name, _)
            | Site::Shown(name) => {
                let fault = self.part(operation, name)?;
                Ok(fault)
            }
            Site::Reads(name)
            | Site::ReadsElement(name)
            | Site::Writes(name)
            | Site::WritesElement(name)
            | Site::Steps(name)
            | Site::Calls(name)
            | Site::Executes(name)
            | Site::Shifts(name)
            | Site::Starts(name) => {
                let fault = self.name(operation, scope, name)?;
                Ok(fault)
            }
            Site::ReadsInput(field) | Site::ReadsOutput(field) | Site::WritesOutput(field) => {
                let fault = self.field(operation, field)?;
                Ok(fault)
            }
            Site::ReadsBoundary(boundary) => {
                let fault = self.boundary(operation, scope, boundary)?;
                Ok(fault)
            }
            Site::Counts(head) => {
                let fault = self.counter(operation, scope, head)?;
                Ok(fault)
            }
            Site::Stalls(pipe, stage) | Site::Flushes(pipe, stage) => {
                let fault = self.control(operation, scope, pipe, stage)?;
                Ok(fault)
            }
            _ => Ok(None),
        }
    }
}
