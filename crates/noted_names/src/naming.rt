//! The names of a description, looked up in memos before its tables.

ghost use Rattle.std.specs.Prelude.{◌≡◌, ◌<◌, ℕ, List, IfOk, IfSome, OnOk, length, option_copied};
ghost use Rattle.lisa_tree.specs.Descriptions.{DescriptionTree, description_tree};
ghost use Rattle.lisa_tree.specs.Resources.{resource_at, stage_at, field_shape};
ghost use Rattle.lisa_tree.specs.Operations.{number_of, own_stage};
ghost use Rattle.lisa_tree.specs.Declarations.{choices, entries, entries_before, declared_at, what_at, owner_at, entry_name_at, alternatives_at, plain_at, above};
ghost use Rattle.lisa_tree.specs.Meanings.{meaning};
ghost use Rattle.noted_names.specs.Memos.{AgreesWith, IsNoted};
ghost use Rattle.noted_names.specs.Naming.{AreNoted, EachIs, IsMemo, IsOwn, NotesAll, means, places_in, stage_places};
ghost use Rattle.noted_names.specs.Noting.{NotesStanding, noted_in, tree_of};

use crate::meeting::met_in;
use crate::memo::Memo;
use crate::noted::Noted;
use crate::places::Places;
use description_tables::Tables;
use lisa_tree::{Description, Meaning, Names, Resource, Shape, What};
use lisa_words::Name;
use std::alloc::{AllocError, Global};

// Notes what a name is in an operation.
fn note_name<N: Names>(
    names: &N,
    operation: usize,
    name: &Name,
    memo: &mut Memo,
) -> Result<(), AllocError>
    requires { IsMemo (N.tree names.now) operation memo.old }
    ensures right { OnOk result (IsMemo (N.tree names.now) operation memo.new) }
    ensures noted { OnOk result (IsNoted memo.new.table name.now) }
    ensures kept { OnOk result ((n : List ℕ) → IsNoted memo.old.table n → IsNoted memo.new.table n) }
{
    if memo.find(name).is_some() {
        return Ok(());
    }
    memo.note(
        name,
        Places {
            first: names.declared_at(operation, name),
            second: names.resource_at(name),
        },
    )?;
    Ok(())
}

// What names are in an operation.
fn memo_of<N: Names>(alloc: Global, names: &N, operation: usize) -> Result<Memo, AllocError>
    ensures right { IfOk result (λ memo. IsMemo (N.tree names.now) operation memo) }
    ensures noted { IfOk result (λ memo. NotesAll (N.tree names.now) operation memo) }
{
    let met = met_in(alloc, names.description(), operation)?;
    let mut memo = Memo::new(alloc, met.len())?;
    'each: for place in 0..met.len() {
        note_name(names, operation, met[place], &mut memo)?;
    }
    Ok(memo)
}

#[tactic(auto, using(crate::proofs::Kept::none_yet, crate::proofs::Kept::one_more))]
fn memos_of<N: Names>(alloc: Global, names: &N) -> Result<Vec<Memo>, AllocError>
    ensures right { IfOk result (λ memos. EachIs (IsMemo (N.tree names.now)) memos.items) }
    ensures noted { IfOk result (λ memos. AreNoted (N.tree names.now) memos.items) }
{
    let mut memos = Vec::new(alloc);
    'each: for operation in 0..names.description().operations.len() {
        memos.push(memo_of(alloc, names, operation)?)?;
    }
    Ok(memos)
}

#[tactic(auto, using(crate::proofs::Kept::none_yet, crate::proofs::Kept::one_more))]
fn own_stages<N: Names>(alloc: Global, names: &N) -> Result<Vec<Option<usize>>, AllocError>
    ensures { IfOk result (λ own. EachIs (IsOwn (N.tree names.now)) own.items) }
{
    let mut own = Vec::new(alloc);
    'each: for operation in 0..names.description().operations.len() {
        own.push(names.own_stage(operation))?;
    }
    Ok(own)
}

// The stages of the pipeline.
fn pipeline_stages(resources: &[Resource]) -> &[Name] {
    for resource in resources {
        if let Resource::Pipeline(_, stages) = resource {
            return stages;
        }
    }
    &[]
}

fn note_stage<N: Names>(names: &N, stage: &Name, memo: &mut Memo) -> Result<(), AllocError>
    requires { AgreesWith (stage_places (N.tree names.now)) memo.old.table }
    ensures { OnOk result (AgreesWith (stage_places (N.tree names.now)) memo.new.table) }
{
    memo.note(
        stage,
        Places {
            first: names.stage_at(stage),
            second: None,
        },
    )?;
    Ok(())
}

fn stages_of<N: Names>(alloc: Global, names: &N) -> Result<Memo, AllocError>
    ensures { IfOk result (λ memo. AgreesWith (stage_places (N.tree names.now)) memo.table) }
{
    let stages = pipeline_stages(&names.description().resources);
    let mut memo = Memo::new(alloc, stages.len())?;
    'each: for stage in stages {
        note_stage(names, stage, &mut memo)?;
    }
    Ok(memo)
}

// What a name means by its places.
fn meaning_by(found: Places) -> Meaning
    ensures { result ≡ means found }
{
    match found.first {
        Some(entry) => Meaning::Declared(entry),
        None => match found.second {
            Some(resource) => Meaning::Resource(resource),
            None => Meaning::Nothing,
        },
    }
}

impl<'a> Noted<'a> {
    /// Goes over the description once. It takes memory and time in proportion to the description.
    pub fn make(alloc: Global, description: &'a Description) -> Result<Noted<'a>, AllocError>
        ensures same { IfOk result (λ noted. tree_of noted ≡ description_tree description.now) }
        ensures noted { IfOk result NotesStanding }
    {
        let tables = Tables::make(alloc, description)?;
        let memos = memos_of(alloc, &tables)?;
        let stages = stages_of(alloc, &tables)?;
        let own = own_stages(alloc, &tables)?;
        Ok(Noted {
            tables,
            memos,
            stages,
            own,
        })
    }

    // The number of the stage that an operation has of its own.
    #[tactic(auto, using(crate::proofs::Kept::each_at))]
    fn stage_of(&self, operation: usize) -> Option<usize>
        ensures { result ≡ own_stage (tree_of self.now) operation }
    {
        if operation < self.own.len() {
            self.own[operation]
        } else {
            self.tables.own_stage(operation)
        }
    }

    // What a name is that is noted in an operation.
    #[tactic(auto, using(crate::proofs::Kept::each_at))]
    fn noted(&self, operation: usize, name: &Name) -> Option<Places>
        ensures noted { result ≡ noted_in self.now operation name.now }
        ensures right { IfSome result (λ found. found ≡ places_in (tree_of self.now) operation name.now) }
    {
        if operation < self.memos.len() {
            self.memos[operation].find(name)
        } else {
            None
        }
    }
}

impl<'a> Names for Noted<'a> {
    ghost tree = { λ t. tree_of t };

    fn description(&self) -> &Description {
        self.tables.description()
    }

    fn resource_at(&self, name: &Name) -> Option<usize> {
        self.tables.resource_at(name)
    }

    fn stage_at(&self, name: &Name) -> Option<usize> {
        match self.stages.find(name) {
            Some(found) => found.first,
            None => self.tables.stage_at(name),
        }
    }

    fn field_shape(&self, name: &Name) -> Option<Shape> {
        self.tables.field_shape(name)
    }

    fn number_of(&self, name: &Name) -> Option<usize> {
        self.tables.number_of(name)
    }

    fn own_stage(&self, operation: usize) -> Option<usize> {
        self.stage_of(operation)
    }

    fn declared_at(&self, operation: usize, name: &Name) -> Option<usize> {
        match self.noted(operation, name) {
            Some(found) => found.first,
            None => self.tables.declared_at(operation, name),
        }
    }

    fn meaning(&self, operation: usize, name: &Name) -> Meaning {
        match self.noted(operation, name) {
            Some(found) => meaning_by(found),
            None => self.tables.meaning(operation, name),
        }
    }

    fn entry_count(&self) -> usize {
        self.tables.entry_count()
    }

    fn entries_before(&self, operation: usize) -> usize {
        self.tables.entries_before(operation)
    }

    fn what_at(&self, entry: usize) -> Option<What> {
        self.tables.what_at(entry)
    }

    fn owner_at(&self, entry: usize) -> usize {
        self.tables.owner_at(entry)
    }

    fn name_at(&self, entry: usize) -> Option<&Name> {
        self.tables.name_at(entry)
    }

    fn choice_count(&self) -> usize {
        self.tables.choice_count()
    }

    fn alternatives_at(&self, choice: usize) -> &[usize] {
        self.tables.alternatives_at(choice)
    }

    fn plain_at(&self, choice: usize) -> &[usize] {
        self.tables.plain_at(choice)
    }

    fn above(&self, operation: usize) -> &[usize] {
        self.tables.above(operation)
    }
}
