//! What the names of an operation's expressions stand for.
ghost use Rattle.std.specs.Prelude.{◌≡◌, ◌≤◌, ◌<◌, ◌^◌, true, None, Some, IfOk, length, slice_get};
ghost use Rattle.lisa_tree.specs.Meanings.{meaning};
ghost use Rattle.scene_paths.specs.lisa_meaning.Values.{stage_before};
ghost use Rattle.scene_paths.specs.Lookups.{array_of, tree_of};
ghost use Rattle.step_pieces.specs.Drafts.{leaf_tree};
ghost use Rattle.lowered_values.specs.Code.{plain};
ghost use Rattle.lowered_values.specs.Code as code;
ghost use Rattle.lowered_statements.specs.Code.{scope_of};
ghost use Rattle.lowered_resources.specs.Reading.{Known, absent, boundary_operand, cells_of, index_width, meant_operand, operand_in, resource_operand, sources};

use crate::indexes::index_width;
use crate::sites::Placing;
use lisa_tree::{BoundaryField, Meaning, Resource, Shape};
use lisa_words::{Kind, Name, NoMemory, Word};
use lowered_statements::Locals;
use lowered_values::{ArraySource, Names, Source};
use scene_paths::{Array, Described};
use step_pieces::Leaf;

/// What the names that an operation declares stand for, and whether the word decodes.
pub trait Declared {
    ghost known: { Self → Known };

    fn named(&self, name: &Name) -> Source
        ensures { plain result ≡ (known self.now).named name.now };

    fn decoded(&self) -> Source
        ensures { plain result ≡ (known self.now).decoded };
}

/// The names of an operation, where some locals are in scope.
#[derive(Drop)]
pub struct Resources<'a, P, K> {
    described: &'a Described<'a>,
    placing: &'a P,
    known: &'a K,
    operation: usize,
    locals: &'a Locals,
    ghost few: { length (tree_of described.now).resources < 2 ^ 32 },
}

// Each resource has a number of 32 bits.
#[tactic(auto, using(crate::proofs::Numbers::no_more))]
fn are_few(described: &Described<'_>) -> bool
    ensures { result ≡ true → length (tree_of described.now).resources < 2 ^ 32 }
{
    match described.resource(4294967295) {
        None => true,
        Some(_) => false,
    }
}

impl<'a, P: Placing, K: Declared> Resources<'a, P, K> {
    /// For a description with fewer than 2 ^ 32 resources; for another one memory is wanting.
    pub fn new(
        described: &'a Described<'a>,
        placing: &'a P,
        known: &'a K,
        operation: usize,
        locals: &'a Locals,
    ) -> Result<Resources<'a, P, K>, NoMemory>
        ensures { IfOk result (λ r. ⟦<Resources<'a, P, K> as Names>⟧.sources r ≡ sources (tree_of described.now) (P.places placing.now) (K.known known.now) operation (scope_of locals.now)) }
    {
        if !are_few(described) {
            return Err(NoMemory);
        }
        Ok(Resources {
            described,
            placing,
            known,
            operation,
            locals,
        })
    }
}

// What isn't there.
fn absent_source() -> Source
    ensures { plain result ≡ absent }
{
    Source {
        at: Leaf::Const(Word { bits: 0, width: 1 }),
        kind: Kind::Unsigned,
        width: 1,
    }
}

// An operand of a type.
fn operand_in(shape: Shape, at: Leaf) -> Source
    requires least { 1 ≤ shape.width }
    requires most { shape.width ≤ 64 }
    ensures { plain result ≡ operand_in shape (leaf_tree at) }
{
    Source {
        at,
        kind: shape.kind,
        width: shape.width,
    }
}

// What stands for the cells where there is no array.
fn no_cells() -> ArraySource
    ensures { code.cells_of result ≡ cells_of None }
{
    ArraySource {
        array: 0,
        kind: Kind::Unsigned,
        width: 1,
        places: 1,
    }
}

fn cells_of(array: Array) -> ArraySource
    requires least { 1 ≤ index_width array.depth }
    requires most { index_width array.depth ≤ 64 }
    requires low { array.place < 2 ^ 32 }
    ensures { code.cells_of result ≡ cells_of (Some (array_of array)) }
{
    ArraySource {
        array: array.place as u32,
        kind: array.shape.kind,
        width: array.shape.width,
        places: index_width(array.depth),
    }
}

fn stage_before(stage: Option<usize>) -> Option<usize>
    ensures { result ≡ stage_before stage }
{
    match stage {
        None => None,
        Some(stage) => stage.checked_sub(1),
    }
}

impl<'a, P: Placing, K: Declared> Resources<'a, P, K> {
    // A register or a pin by its number. A clocked register is read as the edge began.
    #[tactic(auto, using(crate::proofs::Coded::number_within, crate::proofs::Coded::register_operand, crate::proofs::Coded::clocked_operand, crate::proofs::Coded::pin_operand))]
    fn resource(&self, number: usize) -> Source
        ensures { plain result ≡ resource_operand (tree_of self.now.described.now) number (slice_get (tree_of self.now.described.now).resources number) }
    {
        self.described.accepted();
        match self.described.resource(number) {
            Some(Resource::Register(_, shape, _, None)) => {
                let place = self.described.before(number).registers as u32;
                operand_in(*shape, Leaf::Item(place))
            }
            Some(Resource::Clocked(_, shape, _)) => {
                let place = self.described.before(number).registers as u32;
                operand_in(*shape, Leaf::Before(place))
            }
            Some(Resource::Pin(shape, _)) => {
                let place = self.described.before(number).pins as u32;
                operand_in(*shape, Leaf::Pin(place))
            }
            _ => absent_source(),
        }
    }

    // A name that is no local.
    fn meant_source(&self, name: &Name) -> Source
        ensures { plain result ≡ meant_operand (tree_of self.now.described.now) (K.known self.now.known.now) name.now (meaning (tree_of self.now.described.now) self.now.operation name.now) }
    {
        match self.described.meaning(self.operation, name) {
            Meaning::Nothing => absent_source(),
            Meaning::Resource(number) => self.resource(number),
            Meaning::Declared(_) => self.known.named(name),
        }
    }

    // A field of the boundary behind a stage, as the edge began.
    fn field(&self, stage: Option<usize>, field: Option<usize>) -> Source
        ensures { plain result ≡ boundary_operand (tree_of self.now.described.now) (P.places self.now.placing.now) stage field }
    {
        self.described.accepted();
        match (stage, field) {
            (Some(stage), Some(field)) => match self.described.shape_at(field) {
                None => absent_source(),
                Some(shape) => operand_in(shape, Leaf::Before(self.placing.field(stage, field))),
            },
            _ => absent_source(),
        }
    }
}

impl<'a, P: Placing, K: Declared> Names for Resources<'a, P, K> {
    ghost sources = { λ r. sources (tree_of r.described.now) (P.places r.placing.now) (K.known r.known.now) r.operation (scope_of r.locals.now) };

    fn named(&self, name: &Name) -> Source {
        match self.locals.find(name) {
            Some(local) => local.source(),
            None => self.meant_source(name),
        }
    }

    fn element(&self, name: &Name) -> ArraySource {
        self.described.accepted();
        match self.described.array(self.operation, name) {
            None => no_cells(),
            Some(array) => cells_of(array),
        }
    }

    fn input(&self, field: &Name) -> Source {
        let stage = self.described.own_stage(self.operation);
        self.field(stage_before(stage), self.described.field_place(field))
    }

    fn boundary(&self, field: &BoundaryField) -> Source {
        self.field(
            self.described.stage_at(&field.before),
            self.described.field_place(&field.field),
        )
    }

    fn decoded(&self) -> Source {
        self.known.decoded()
    }
}
