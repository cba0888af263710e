//! What assignments put behind a draft.
ghost use Rattle.std.specs.Prelude.{◌≡◌, ◌≤◌, IfOk, OnOk, Some, slice_get};
ghost use Rattle.std.specs.Map.{lookup};
ghost use Rattle.lisa_tree.specs.Expressions.{expr_tree};
ghost use Rattle.lisa_tree.specs.Descriptions.{resource_tree};
ghost use Rattle.lisa_tree.specs.Same.{same_name};
ghost use Rattle.lisa_tree.specs.Operations.{own_stage};
ghost use Rattle.lisa_tree.specs.Meanings.{meaning};
ghost use Rattle.scene_paths.specs.lisa_meaning.Values.{field_place, named_array};
ghost use Rattle.scene_paths.specs.Lookups.{tree_of};
ghost use Rattle.step_program.specs.Programs.{ToCell, aim_of};
ghost use Rattle.step_pieces.specs.Drafts.{leaf_tree};
ghost use Rattle.lowered_values.specs.Code.{plain};
ghost use Rattle.lowered_values.specs.Sources.{bare};
ghost use Rattle.lowered_values.specs.Templates.{fitted};
ghost use Rattle.lowered_statements.specs.Code.{Adds, base, given_of, local_of, scope_of};
ghost use Rattle.lowered_resources.specs.Putting.{assigned, element_put, field_put, local_put, meant_put, name_put, out_put, puts, resource_put};
ghost use Rattle.lowered_resources.specs.Reading.{index_width};
ghost use Rattle.lowered_resources.specs.Code.{register_shape};

use crate::accesses::Accesses;
use crate::controls::tell;
use crate::indexes::index_width;
use crate::sites::Placing;
use crate::told::Told;
use lisa_tree::{Expr, Meaning, Resource, Shape};
use lisa_words::{Kind, Name, NoMemory};
use lowered_statements::{Given, LocalTemp, Locals};
use lowered_values::{Source, fitted};
use scene_paths::{Array, Described};
use std::alloc::Global;
use step_pieces::{Draft, Leaf};
use step_program::Target;

/// Where things are assigned: an operation with the locals that are in scope there.
#[derive(Drop)]
pub struct Targets<'a, P, A> {
    pub alloc: Global,
    pub described: &'a Described<'a>,
    pub placing: &'a P,
    pub accesses: &'a A,
    pub operation: usize,
    pub locals: &'a Locals,
}

// The number of something in the step program. Where there are more than numbers, memory is wanting.
fn number_of(place: usize) -> Result<u32, NoMemory>
    ensures { IfOk result (λ number. number ≡ place) }
{
    match u32::try_from(place) {
        Ok(number) => Ok(number),
        Err(_) => Err(NoMemory),
    }
}

// Under a guard a place of a type takes what it is given.
fn assign(
    alloc: Global,
    guard: Leaf,
    target: Target,
    shape: Shape,
    given: Given,
    draft: &mut Draft,
) -> Result<(), NoMemory>
    requires least { 1 ≤ shape.width }
    requires most { shape.width ≤ 64 }
    ensures { OnOk result (Adds draft.old draft.new (assigned (leaf_tree guard) (aim_of target) shape (given_of given))) }
{
    let value = fitted(alloc, given.in_kind(shape.kind), shape.width)?;
    draft.step(guard.expression(), target, value)?;
    Ok(())
}

fn put_local(
    alloc: Global,
    local: LocalTemp,
    guard: Leaf,
    given: Given,
    draft: &mut Draft,
) -> Result<(), NoMemory>
    ensures { OnOk result (Adds draft.old draft.new (local_put (local_of local) (leaf_tree guard) (given_of given))) }
{
    let shape = Shape {
        kind: local.kind,
        width: local.width,
    };
    assign(alloc, guard, Target::Temp(local.temp), shape, given, draft)?;
    Ok(())
}

// The type of a register that is no array.
fn register_shape(resource: &Resource) -> Option<Shape>
    ensures { result ≡ register_shape (resource_tree resource.now) }
{
    match resource {
        Resource::Register(_, shape, _, None) => Some(*shape),
        Resource::Clocked(_, shape, _) => Some(*shape),
        _ => None,
    }
}

// A register by its number among the resources.
#[tactic(auto, using(crate::proofs::Coded::number_within, crate::proofs::Coded::no_register, crate::proofs::Coded::own_register))]
fn put_register(
    alloc: Global,
    described: &Described<'_>,
    number: usize,
    guard: Leaf,
    given: Given,
    draft: &mut Draft,
) -> Result<(), NoMemory>
    ensures { OnOk result (Adds draft.old draft.new (resource_put (tree_of described.now) number (slice_get (tree_of described.now).resources number) (leaf_tree guard) (given_of given))) }
{
    described.accepted();
    let Some(resource) = described.resource(number) else {
        return Ok(());
    };
    let Some(shape) = register_shape(resource) else {
        return Ok(());
    };
    let place = number_of(described.before(number).registers)?;
    assign(alloc, guard, Target::Item(place), shape, given, draft)?;
    Ok(())
}

// An element, at the lowest bits of an index.
fn put_cell(
    alloc: Global,
    array: Array,
    guard: Leaf,
    index: Source,
    given: Given,
    draft: &mut Draft,
) -> Result<(), NoMemory>
    requires least { 1 ≤ index_width array.depth }
    requires most { index_width array.depth ≤ 64 }
    ensures { OnOk result (Adds draft.old draft.new (assigned (leaf_tree guard) (ToCell array.place (fitted (bare (plain index)) (index_width array.depth))) array.shape (given_of given))) }
{
    let bits = Source {
        at: index.at,
        kind: Kind::Unsigned,
        width: index.width,
    };
    let at = fitted(alloc, bits, index_width(array.depth))?;
    let place = number_of(array.place)?;
    assign(
        alloc,
        guard,
        Target::Cell(place, at),
        array.shape,
        given,
        draft,
    )?;
    Ok(())
}

// A field of the boundary behind a stage: its bits, and that it has some.
#[tactic(auto, using(crate::proofs::Adding::field_adds))]
fn put_field<P: Placing>(
    alloc: Global,
    placing: &P,
    place: (usize, usize),
    shape: Shape,
    guard: Leaf,
    given: Given,
    draft: &mut Draft,
) -> Result<(), NoMemory>
    requires least { 1 ≤ shape.width }
    requires most { shape.width ≤ 64 }
    ensures { OnOk result (Adds draft.old draft.new (field_put (P.places placing.now) place.0 place.1 (Some shape) (leaf_tree guard) (given_of given))) }
{
    let (boundary, field) = place;
    let temp = placing.temp(Told::Out(boundary, field))?;
    assign(alloc, guard, Target::Temp(temp), shape, given, draft)?;
    tell(placing, guard, Told::Written(boundary, field), draft)?;
    Ok(())
}

impl<'a, P: Placing, A: Accesses> Targets<'a, P, A> {
    #[tactic(auto, using(crate::proofs::Adding::element_adds))]
    fn put_element(
        &self,
        name: &Name,
        index: &Expr,
        guard: Leaf,
        given: Given,
        draft: &mut Draft,
    ) -> Result<(), NoMemory>
        ensures { OnOk result (Adds draft.old draft.new (element_put (named_array (tree_of self.now.described.now) self.now.operation name.now) (leaf_tree guard) (A.reads self.now.accesses.now (scope_of self.now.locals.now) (base draft.old) (expr_tree index.now)) (given_of given))) }
    {
        let Some(array) = self.described.array(self.operation, name) else {
            return Ok(());
        };
        self.described.accepted();
        let index = self.accesses.read(self.locals, index, draft)?;
        put_cell(self.alloc, array, guard, index, given, draft)?;
        Ok(())
    }

    // A field of the boundary behind the own stage.
    #[tactic(auto, using(crate::proofs::Adding::out_adds))]
    fn put_output(
        &self,
        field: &Name,
        guard: Leaf,
        given: Given,
        draft: &mut Draft,
    ) -> Result<(), NoMemory>
        ensures { OnOk result (Adds draft.old draft.new (out_put (tree_of self.now.described.now) (P.places self.now.placing.now) (own_stage (tree_of self.now.described.now) self.now.operation) (field_place (tree_of self.now.described.now) field.now) (leaf_tree guard) (given_of given))) }
    {
        let Some(stage) = self.described.own_stage(self.operation) else {
            return Ok(());
        };
        let Some(field) = self.described.field_place(field) else {
            return Ok(());
        };
        let Some(shape) = self.described.shape_at(field) else {
            return Ok(());
        };
        self.described.accepted();
        let place = (stage, field);
        put_field(self.alloc, self.placing, place, shape, guard, given, draft)?;
        Ok(())
    }

    // A name that is no local.
    fn put_meant(
        &self,
        name: &Name,
        guard: Leaf,
        given: Given,
        draft: &mut Draft,
    ) -> Result<(), NoMemory>
        ensures { OnOk result (Adds draft.old draft.new (meant_put (tree_of self.now.described.now) (A.stores self.now.accesses.now) name.now (meaning (tree_of self.now.described.now) self.now.operation name.now) (leaf_tree guard) (base draft.old) (given_of given))) }
    {
        match self.described.meaning(self.operation, name) {
            Meaning::Nothing => Ok(()),
            Meaning::Resource(number) => {
                put_register(self.alloc, self.described, number, guard, given, draft)?;
                Ok(())
            }
            Meaning::Declared(_) => {
                self.accesses.store(name, guard, given, draft)?;
                Ok(())
            }
        }
    }

    fn put_named(
        &self,
        name: &Name,
        guard: Leaf,
        given: Given,
        draft: &mut Draft,
    ) -> Result<(), NoMemory>
        ensures { OnOk result (Adds draft.old draft.new (name_put (lookup (same_name name.now) (scope_of self.now.locals.now)) (leaf_tree guard) (given_of given) (meant_put (tree_of self.now.described.now) (A.stores self.now.accesses.now) name.now (meaning (tree_of self.now.described.now) self.now.operation name.now) (leaf_tree guard) (base draft.old) (given_of given)))) }
    {
        match self.locals.find(name) {
            Some(local) => {
                put_local(self.alloc, local, guard, given, draft)?;
                Ok(())
            }
            None => {
                self.put_meant(name, guard, given, draft)?;
                Ok(())
            }
        }
    }

    /// Puts what gives a place an operand, under a guard, behind what is there. What is no place gets nothing. The only other answer is
    /// want of memory, or of numbers for temps.
    pub fn put(
        &self,
        guard: Leaf,
        target: &Expr,
        given: Given,
        draft: &mut Draft,
    ) -> Result<(), NoMemory>
        ensures { OnOk result (Adds draft.old draft.new (puts (tree_of self.now.described.now) (P.places self.now.placing.now) (A.reads self.now.accesses.now) (A.stores self.now.accesses.now) self.now.operation (scope_of self.now.locals.now) (leaf_tree guard) (base draft.old) (expr_tree target.now) (given_of given))) }
    {
        match target {
            Expr::Named(name) => {
                self.put_named(name, guard, given, draft)?;
                Ok(())
            }
            Expr::Element(name, index) => {
                self.put_element(name, index, guard, given, draft)?;
                Ok(())
            }
            Expr::Output(field) => {
                self.put_output(field, guard, given, draft)?;
                Ok(())
            }
            Expr::Number(_, _)
            | Expr::Input(_)
            | Expr::Boundary(_)
            | Expr::Decoded
            | Expr::Cast(_, _)
            | Expr::Complement(_)
            | Expr::Negate(_)
            | Expr::Two(_, _, _)
            | Expr::Choose(_, _, _) => Ok(()),
        }
    }
}
