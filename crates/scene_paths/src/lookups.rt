//! Look-ups in a description.

ghost use Rattle.std.specs.Prelude.{◌≡◌, ◌<◌, ◌+◌, ℕ, List, Some, IfOk, length, option_map, slice_get};
ghost use Rattle.lisa_tree.specs.Expressions.{expr_tree};
ghost use Rattle.lisa_tree.specs.Statements.{stmt_trees};
ghost use Rattle.lisa_tree.specs.Descriptions.{coding_tree, description_tree, resource_tree};
ghost use Rattle.lisa_tree.specs.Same.{same_name};
ghost use Rattle.lisa_tree.specs.Resources.{fields, stage_at};
ghost use Rattle.lisa_tree.specs.Operations.{sections_at, activation_in, behavior_in, coding_in, expression_in, is_root, own_stage};
ghost use Rattle.lisa_tree.specs.Declarations.{what_at};
ghost use Rattle.lisa_tree.specs.Meanings.{meaning};
ghost use Rattle.lisa_tree.specs.Paths.{node_count};
ghost use Rattle.lisa_meaning.specs.description_sizes.Texts.{levels};
ghost use Rattle.lisa_meaning.specs.coding_tables.Instructions.{first_root};
ghost use Rattle.lisa_meaning.specs.lisa_machine.Verdicts.{IsAccepted};
ghost use Rattle.lisa_meaning.specs.lisa_forms.Parts.{AreFormsOf};
ghost use Rattle.lisa_meaning.specs.lisa_forms.Codings.{IsCodingOf};
ghost use Rattle.lisa_meaning.specs.stage_checks.Running.{started, choice_of};
ghost use Rattle.lisa_meaning.specs.activation_trees.Starting.{plain_named};
ghost use Rattle.lisa_meaning.specs.Scenes.{declared};
ghost use Rattle.lisa_meaning.specs.Values.{register_place, array_place, pin_place, field_place, shape_at};
ghost use Rattle.lisa_meaning.specs.Cores.{conditions_in};
ghost use Rattle.scene_paths.specs.Conditions.{all_conditions, rows_of};
ghost use Rattle.scene_paths.specs.Places.{ArePlaces};
ghost use Rattle.scene_paths.specs.Lookups.{tree_of};

use crate::before::{Before, places};
use crate::conditions::{condition_at, conditions};
use crate::described::Described;
use crate::fields::{boundary_fields, field_places, shape_at};
use lisa_meaning::{Coding, Forms, Machine, is_root, operation_count, resource, sections};
use lisa_tree::{
    CodingPart, Description, Expr, Meaning, Names, Resource, Shape, Stmt, What, behavior, coding,
    expression,
};
use lisa_words::{Name, NoMemory};
use noted_names::Noted;
use std::alloc::Global;

// How many operations, groups, instances and declared names there are, and one more. As many as no table holds are answered as want of memory.
fn level_count<N: Names>(names: &N) -> Result<usize, NoMemory>
    ensures { IfOk result (λ count. count ≡ levels (N.tree names.now)) }
{
    match operation_count(names).checked_add(names.choice_count()) {
        None => Err(NoMemory),
        Some(base) => match base.checked_add(names.entry_count()) {
            None => Err(NoMemory),
            Some(count) => count.checked_add(1).ok_or(NoMemory),
        },
    }
}

// The operation that has the root, the first one.
#[tactic(auto, using(crate::proofs::Rooting::root_here, crate::proofs::Rooting::root_past, crate::proofs::Rooting::no_root))]
fn first_root<N: Names>(names: &N) -> Option<usize>
    ensures { result ≡ option_map (λ found. found.operation) (first_root (N.tree names.now)) }
{
    'each: for operation in 0..operation_count(names) {
        if is_root(names, operation) {
            return Some(operation);
        }
    }
    None
}

fn places_of(alloc: Global, description: &Description) -> Result<Vec<Before>, NoMemory>
    ensures { IfOk result (λ all. ArePlaces (description_tree description.now) all.items) }
{
    let all = places(alloc, &description.resources)?;
    Ok(all)
}

fn boundary_of(description: &Description) -> &[(Shape, Name)]
    ensures { result.now ≡ fields (description_tree description.now) }
{
    boundary_fields(&description.resources)
}

fn conditions_of(alloc: Global, description: &Description) -> Result<Vec<Vec<&Expr>>, NoMemory>
    ensures { IfOk result (λ rows. rows_of rows.items ≡ all_conditions (description_tree description.now).operations) }
{
    let rows = conditions(alloc, &description.operations)?;
    Ok(rows)
}

// The group or the instance that something declared is.
fn choice_of(what: Option<What>) -> Option<usize>
    ensures { result ≡ choice_of what }
{
    match what {
        Some(What::Group(choice)) | Some(What::Instance(choice)) => Some(choice),
        _ => None,
    }
}

impl<'a> Described<'a> {
    /// Goes over the description once. It takes memory and time in proportion to it.
    pub fn make(
        alloc: Global,
        machine: &'a Machine,
        forms: &'a Forms,
        coding: &'a Coding,
    ) -> Result<Described<'a>, NoMemory>
        requires forms { AreFormsOf (description_tree machine.now) forms.now }
        requires coding { IsCodingOf (description_tree machine.now) coding.now }
        ensures { IfOk result (λ x. tree_of x ≡ description_tree machine.now) }
    {
        machine.accepted();
        let description = machine.description();
        let tables = Noted::make(alloc, description)?;
        let places = places_of(alloc, description)?;
        let boundary = boundary_of(description);
        let fields = field_places(alloc, boundary)?;
        let conditions = conditions_of(alloc, description)?;
        let root = first_root(&tables);
        let levels = level_count(&tables)?;
        Ok(Described {
            tables,
            forms,
            coding,
            places,
            boundary,
            fields,
            conditions,
            root,
            levels,
        })
    }

    /// The description is accepted.
    pub fn accepted(&self)
        ensures { IsAccepted (tree_of self.now) }
    {
        let _levels = self.levels;
    }

    /// The forms of its instructions.
    pub fn forms(&self) -> &'a Forms
        ensures { AreFormsOf (tree_of self.now) result.now }
    {
        self.forms
    }

    /// The coding of its instructions.
    pub fn coding(&self) -> &'a Coding
        ensures { IsCodingOf (tree_of self.now) result.now }
    {
        self.coding
    }

    /// No path of operations has more levels.
    pub fn levels(&self) -> usize
        ensures { result ≡ levels (tree_of self.now) }
    {
        self.levels
    }

    /// How many registers, arrays and pins stand before a resource.
    #[tactic(auto, using(crate::proofs::Placing::places_counted, crate::proofs::Placing::register_read, crate::proofs::Placing::array_read, crate::proofs::Placing::pin_read))]
    pub fn before(&self, number: usize) -> Before
        requires { number < length (tree_of self.now).resources }
        ensures registers { result.registers ≡ register_place (tree_of self.now) number }
        ensures arrays { result.arrays ≡ array_place (tree_of self.now) number }
        ensures pins { result.pins ≡ pin_place (tree_of self.now) number }
    {
        self.places[number]
    }

    /// The resource of a number.
    pub fn resource(&self, number: usize) -> Option<&Resource>
        ensures { option_map (λ r. resource_tree r.now) result ≡ slice_get (tree_of self.now).resources number }
    {
        resource(&self.tables, number)
    }

    /// The place of a field among those of a boundary.
    pub fn field_place(&self, name: &Name) -> Option<usize>
        ensures { result ≡ field_place (tree_of self.now) name.now }
    {
        self.fields.place(name)
    }

    /// The type of a field by its place.
    pub fn shape_at(&self, field: usize) -> Option<Shape>
        ensures { result ≡ shape_at (tree_of self.now) field }
    {
        shape_at(self.boundary, field)
    }

    /// The number of a stage.
    pub fn stage_at(&self, name: &Name) -> Option<usize>
        ensures { result ≡ stage_at (tree_of self.now) name.now }
    {
        self.tables.stage_at(name)
    }

    /// The number of the stage that an operation has of its own.
    pub fn own_stage(&self, operation: usize) -> Option<usize>
        ensures { result ≡ own_stage (tree_of self.now) operation }
    {
        self.tables.own_stage(operation)
    }

    /// What a name stands for in an operation, locals aside.
    pub fn meaning(&self, operation: usize, name: &Name) -> Meaning
        ensures { result ≡ meaning (tree_of self.now) operation name.now }
    {
        self.tables.meaning(operation, name)
    }

    /// As what an operation declares a name.
    pub fn declared(&self, operation: usize, name: &Name) -> Option<What>
        ensures { result ≡ declared (tree_of self.now) operation name.now }
    {
        match self.tables.declared_at(operation, name) {
            None => None,
            Some(entry) => self.tables.what_at(entry),
        }
    }

    /// What a declared name is, by its number among all declared names.
    pub fn what(&self, entry: usize) -> Option<What>
        ensures { result ≡ what_at (tree_of self.now) entry }
    {
        self.tables.what_at(entry)
    }

    // The number of the group or instance that an operation declares by a name.
    fn started(&self, operation: usize, name: &Name) -> Option<usize>
        ensures { result ≡ started (tree_of self.now) operation name.now }
    {
        match self.tables.declared_at(operation, name) {
            None => None,
            Some(entry) => choice_of(self.tables.what_at(entry)),
        }
    }

    /// The operations, no aliases, among which a group or an instance of an operation chooses.
    pub fn plain_named(&self, operation: usize, name: &Name) -> &[usize]
        ensures { result.now ≡ plain_named (tree_of self.now) operation name.now }
    {
        match self.started(operation, name) {
            None => &[],
            Some(choice) => self.tables.plain_at(choice),
        }
    }

    /// The CODING of an operation.
    pub fn coding_part(&self, operation: usize) -> Option<&CodingPart>
        ensures { option_map (λ part. coding_tree part.now) result ≡ coding_in (sections_at (tree_of self.now) operation) }
    {
        coding(sections(&self.tables, operation))
    }

    /// The EXPRESSION of an operation.
    pub fn expression(&self, operation: usize) -> Option<&Expr>
        ensures { option_map (λ e. expr_tree e.now) result ≡ expression_in (sections_at (tree_of self.now) operation) }
    {
        expression(sections(&self.tables, operation))
    }

    /// The BEHAVIOR of an operation.
    pub fn behavior(&self, operation: usize) -> Option<&[Stmt]>
        ensures { option_map (λ all. stmt_trees all.now) result ≡ behavior_in (sections_at (tree_of self.now) operation) }
    {
        behavior(sections(&self.tables, operation))
    }

    /// A condition of the ACTIVATION of an operation, by its number there.
    #[tactic(auto, using(crate::proofs::Conditioned::condition_is))]
    pub fn condition(&self, operation: usize, test: usize) -> Option<&'a Expr>
        ensures { option_map (λ e. expr_tree e.now) result ≡ slice_get (conditions_in (activation_in (sections_at (tree_of self.now) operation))) test }
    {
        condition_at(&self.conditions, operation, test)
    }

    /// The operation that has the root.
    pub fn root(&self) -> Option<usize>
        ensures { result ≡ option_map (λ found. found.operation) (first_root (tree_of self.now)) }
    {
        self.root
    }

    /// Whether an operation has the root.
    pub fn is_root(&self, operation: usize) -> bool
        ensures { result ≡ is_root (tree_of self.now) operation }
    {
        is_root(&self.tables, operation)
    }
}
