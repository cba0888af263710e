//! The kinds of a description's nodes and declared names, found out once.

ghost use Rattle.std.specs.Prelude.{◌≡◌, ◌↔◌, ◌<◌, ◌&&◌, ℕ, length, true, IfOk};
ghost use Rattle.std.specs.Option.{is_some};
ghost use Rattle.graph_paths.specs.Paths.{saw};
ghost use Rattle.least_fixed_points.specs.Settles.{entry};
ghost use Rattle.lisa_tree.specs.Declarations.{entries};
ghost use Rattle.lisa_tree.specs.Paths.{entry_node, node_count};
ghost use Rattle.lisa_tree.specs.Expressions.{expr_tree};
ghost use Rattle.meant_declarations.specs.Meanings.{AreMeanings};
ghost use Rattle.meant_declarations.specs.Lacking.{lacks};
ghost use Rattle.description_types.specs.Types.{type_of};
ghost use Rattle.description_types.specs.Kinds.{unrefused};
ghost use Rattle.description_types.specs.Codings.{AreCodings};
ghost use Rattle.description_types.specs.Uses.{traits_by};
ghost use Rattle.description_types.specs.Tables.{AreMeant, AreTypes, LacksType, IsIncomplete, IsTypeless, DifferInType, AreAssignables, MayAssign, MayNotAssign, IsUnassignable, IsSettled, Tables, known_by, AreKinds};

use crate::assignable_facts::AssignableFacts;
use crate::bases::order;
use crate::codings::codings;
use crate::facts::{Facts, Following};
use crate::lookups::{known_entry, mark_at, operation_count};
use crate::meant::{marks, some_meant};
use crate::type_facts::{TypeFacts, unrefused};
use crate::types::type_of;
use crate::unfit::{Apart, Assigned, Incomplete, Lacking, Settled, Typeless, Unfit};
use crate::uses::UseTables;
use crate::values::{Assignable, CodedName, Traits, TypeOf};
use description_places::Scope;
use least_fixed_points::settle_along;
use lisa_tree::{Expr, Names, Shape};
use lisa_words::NoMemory;
use meant_declarations::{Meanings, lacking_references};
use std::alloc::{AllocError, Global};
use std::marker::Model;

/// What is found out about operations, choices and declared names. A node whose value would rest on itself has none, and what holds of a
/// declared name holds of some declaration that it may mean.
///
/// Contracts see it as its tables: two with an entry for each node, in the order of their numbers, and some with one for each declared
/// name.
#[derive(Drop)]
pub struct Kinds {
    types: Vec<Option<TypeOf>>,
    assignables: Vec<Option<Assignable>>,
    uses: UseTables,
    typeless: Vec<bool>,
    unassignable: Vec<bool>,
    types_differ: Vec<bool>,
    assignables_differ: Vec<bool>,
}

impl Model for Kinds {
    ghost Value = { Tables };

    ghost view = { λ k. record { types = k.types.items; assignables = k.assignables.items; traits = k.uses; typeless = k.typeless.items; unassignable = k.unassignable.items; types_differ = k.types_differ.items; assignables_differ = k.assignables_differ.items } };
}

// How many nodes there are. As many as no table holds are answered as want of memory.
fn node_count<N: Names>(names: &N) -> Result<usize, NoMemory>
    ensures { IfOk result (λ count. count ≡ node_count (N.tree names.now)) }
{
    match operation_count(names).checked_add(names.choice_count()) {
        None => Err(NoMemory),
        Some(base) => match base.checked_add(names.entry_count()) {
            None => Err(NoMemory),
            Some(count) => Ok(count),
        },
    }
}

// The types of all nodes.
fn types<N: Names>(
    alloc: Global,
    names: &N,
    codings: &[CodedName],
    uses: &UseTables,
    meanings: &Meanings,
    lacking: &[bool],
) -> Result<Vec<Option<TypeOf>>, NoMemory>
    requires codings { AreCodings (N.tree names.now) codings.now }
    requires meanings { AreMeanings (N.tree names.now) meanings.now }
    requires lacking { (i : ℕ) → saw lacking.now i ≡ lacks (N.tree names.now) i }
    ensures { IfOk result (λ types. AreTypes (N.tree names.now) (traits_by uses.now) (entry types.items)) }
{
    let count = node_count(names)?;
    let unfit = Apart { uses };
    let facts = TypeFacts {
        names,
        unfit: &unfit,
        codings,
        no_locals: Scope::new(alloc),
    };
    let rule = Following {
        names,
        facts: &facts,
        sources: meanings.sources(),
        lacking,
    };
    let types = settle_along(alloc, &rule, count, &order(alloc, &rule, count)?)?;
    Ok(types)
}

// Whether nodes may be assigned.
fn assignables<N: Names>(
    alloc: Global,
    names: &N,
    uses: &UseTables,
    typeless: &[bool],
    meanings: &Meanings,
    lacking: &[bool],
) -> Result<Vec<Option<Assignable>>, NoMemory>
    requires meanings { AreMeanings (N.tree names.now) meanings.now }
    requires lacking { (i : ℕ) → saw lacking.now i ≡ lacks (N.tree names.now) i }
    ensures { IfOk result (λ assignables. AreAssignables (N.tree names.now) (traits_by uses.now) (saw typeless.now) (entry assignables.items)) }
{
    let count = node_count(names)?;
    let apart = Apart { uses };
    let unfit = Unfit { uses, typeless };
    let facts = AssignableFacts {
        names,
        apart: &apart,
        unfit: &unfit,
    };
    let rule = Following {
        names,
        facts: &facts,
        sources: meanings.sources(),
        lacking,
    };
    let assignables = settle_along(alloc, &rule, count, &order(alloc, &rule, count)?)?;
    Ok(assignables)
}

// The types of the declared names alone, and of those that are refused none.
fn declared_types<N: Names>(
    alloc: Global,
    names: &N,
    types: &[Option<TypeOf>],
) -> Result<Vec<Option<TypeOf>>, AllocError>
    ensures length { IfOk result (λ declared. length declared.items ≡ length (entries (N.tree names.now))) }
    ensures exact { IfOk result (λ declared. (i : ℕ) → i < length (entries (N.tree names.now)) → entry declared.items i ≡ unrefused (entry types.now (entry_node (N.tree names.now) i))) }
{
    let mut declared = Vec::new(alloc);
    for entry in 0..names.entry_count() {
        declared.push(unrefused(known_entry(names, types, entry)))?;
    }
    Ok(declared)
}

// Those of marked declared names that have a value.
fn among_settled<T: Copy, N: Names>(
    alloc: Global,
    names: &N,
    table: &[Option<T>],
    marked: &[bool],
) -> Result<Vec<bool>, AllocError>
    ensures within { IfOk result (λ kept. (i : ℕ) → i < length (entries (N.tree names.now)) → saw kept.items i ≡ (saw marked.now i && is_some (entry table.now (entry_node (N.tree names.now) i)))) }
    ensures marked { IfOk result (λ kept. (i : ℕ) → saw kept.items i ≡ true → saw marked.now i ≡ true) }
{
    let settled = marks(alloc, &Settled { names, table }, names.entry_count())?;
    let kept = both(alloc, marked, &settled)?;
    Ok(kept)
}

// Which declared names may mean declarations of different types.
fn differ_in_type<N: Names>(
    alloc: Global,
    names: &N,
    meanings: &Meanings,
    types: &[Option<TypeOf>],
) -> Result<Vec<bool>, NoMemory>
    requires { AreMeanings (N.tree names.now) meanings.now }
    ensures { IfOk result (λ marks. (i : ℕ) → (saw marks.items i ≡ true) ↔ (IsSettled (N.tree names.now) (entry types.now) i × DifferInType (N.tree names.now) (entry types.now) i)) }
{
    let declared = declared_types(alloc, names, types)?;
    let marked = meanings.differ(alloc, names, &declared)?;
    let marks = among_settled(alloc, names, types, &marked)?;
    Ok(marks)
}

// Which declared names may mean a declaration that lacks an EXPRESSION or a field.
fn incomplete<N: Names>(
    alloc: Global,
    names: &N,
    codings: &[CodedName],
    meanings: &Meanings,
) -> Result<Vec<bool>, NoMemory>
    requires codings { AreCodings (N.tree names.now) codings.now }
    requires meanings { AreMeanings (N.tree names.now) meanings.now }
    ensures { IfOk result (λ marks. AreMeant (N.tree names.now) (IsIncomplete (N.tree names.now)) (saw marks.items)) }
{
    let marks = some_meant(alloc, names, meanings, &Incomplete { names, codings })?;
    Ok(marks)
}

// Which declared names may mean a declaration that has no type, be the others open or not.
fn without_type<N: Names>(
    alloc: Global,
    names: &N,
    meanings: &Meanings,
    types: &[Option<TypeOf>],
) -> Result<Vec<bool>, NoMemory>
    requires { AreMeanings (N.tree names.now) meanings.now }
    ensures { IfOk result (λ marks. AreMeant (N.tree names.now) (LacksType (N.tree names.now) (entry types.now)) (saw marks.items)) }
{
    let marks = some_meant(alloc, names, meanings, &Typeless { names, types })?;
    Ok(marks)
}

// Which declared names have no type by what they may mean.
fn typeless<N: Names>(
    alloc: Global,
    names: &N,
    codings: &[CodedName],
    meanings: &Meanings,
    types: &[Option<TypeOf>],
) -> Result<Vec<bool>, NoMemory>
    requires codings { AreCodings (N.tree names.now) codings.now }
    requires meanings { AreMeanings (N.tree names.now) meanings.now }
    ensures { IfOk result (λ marks. (i : ℕ) → (saw marks.items i ≡ true) ↔ IsTypeless (N.tree names.now) (entry types.now) i) }
{
    let incomplete = incomplete(alloc, names, codings, meanings)?;
    let typeless = without_type(alloc, names, meanings, types)?;
    let lacking = Lacking {
        names,
        types,
        incomplete: &incomplete,
        typeless: &typeless,
    };
    let marks = marks(alloc, &lacking, names.entry_count())?;
    Ok(marks)
}

// Which declared names may mean a declaration that may be assigned.
fn assignable<N: Names>(
    alloc: Global,
    names: &N,
    meanings: &Meanings,
    assignables: &[Option<Assignable>],
) -> Result<Vec<bool>, NoMemory>
    requires { AreMeanings (N.tree names.now) meanings.now }
    ensures { IfOk result (λ marks. AreMeant (N.tree names.now) (MayAssign (N.tree names.now) (entry assignables.now)) (saw marks.items)) }
{
    let assigned = Assigned {
        names,
        assignables,
        may: true,
    };
    let marks = some_meant(alloc, names, meanings, &assigned)?;
    Ok(marks)
}

// Which declared names may mean one that may not, be the others open or not.
fn not_assignable<N: Names>(
    alloc: Global,
    names: &N,
    meanings: &Meanings,
    assignables: &[Option<Assignable>],
) -> Result<Vec<bool>, NoMemory>
    requires { AreMeanings (N.tree names.now) meanings.now }
    ensures { IfOk result (λ marks. AreMeant (N.tree names.now) (MayNotAssign (N.tree names.now) (entry assignables.now)) (saw marks.items)) }
{
    let assigned = Assigned {
        names,
        assignables,
        may: false,
    };
    let marks = some_meant(alloc, names, meanings, &assigned)?;
    Ok(marks)
}

// Which declared names may mean one that may not, where none is open.
fn unassignable<N: Names>(
    alloc: Global,
    names: &N,
    meanings: &Meanings,
    assignables: &[Option<Assignable>],
) -> Result<Vec<bool>, NoMemory>
    requires { AreMeanings (N.tree names.now) meanings.now }
    ensures { IfOk result (λ marks. (i : ℕ) → (saw marks.items i ≡ true) ↔ IsUnassignable (N.tree names.now) (entry assignables.now) i) }
{
    let marked = not_assignable(alloc, names, meanings, assignables)?;
    let marks = among_settled(alloc, names, assignables, &marked)?;
    Ok(marks)
}

fn is_in_both(left: &[bool], right: &[bool], entry: usize) -> bool
    ensures { result ≡ (saw left.now entry && saw right.now entry) }
{
    mark_at(left, entry) && mark_at(right, entry)
}

// What two tables of marks have in common.
fn both(alloc: Global, left: &[bool], right: &[bool]) -> Result<Vec<bool>, AllocError>
    ensures { IfOk result (λ marks. (i : ℕ) → saw marks.items i ≡ (saw left.now i && saw right.now i)) }
{
    let mut marks = Vec::new(alloc);
    for entry in 0..left.len() {
        marks.push(is_in_both(left, right, entry))?;
    }
    Ok(marks)
}

impl Kinds {
    /// Finds them out.
    pub fn make<N: Names>(alloc: Global, names: &N) -> Result<Kinds, NoMemory>
        ensures { IfOk result (λ kinds. AreKinds (N.tree names.now) (known_by kinds)) }
    {
        let codings = codings(alloc, names)?;
        let meanings = Meanings::make(alloc, names)?;
        let lacking = lacking_references(alloc, names, &meanings)?;
        let uses = UseTables::make(alloc, names, &codings, &meanings)?;
        let types = types(alloc, names, &codings, &uses, &meanings, &lacking)?;
        let typeless = typeless(alloc, names, &codings, &meanings, &types)?;
        let types_differ = differ_in_type(alloc, names, &meanings, &types)?;
        let assignables = assignables(alloc, names, &uses, &typeless, &meanings, &lacking)?;
        let assignable = assignable(alloc, names, &meanings, &assignables)?;
        let unassignable = unassignable(alloc, names, &meanings, &assignables)?;
        let assignables_differ = both(alloc, &assignable, &unassignable)?;
        Ok(Kinds {
            types,
            assignables,
            uses,
            typeless,
            unassignable,
            types_differ,
            assignables_differ,
        })
    }

    /// The type of an expression in an operation, with these locals in scope.
    pub fn type_of<N: Names>(
        &self,
        names: &N,
        operation: usize,
        scope: &Scope,
        expression: &Expr,
    ) -> Option<Shape>
        ensures { result ≡ type_of (known_by self.now).types (N.tree names.now) operation scope.now (expr_tree expression.now) }
    {
        type_of(names, &self.types, operation, scope, expression)
    }

    /// The type of a declared name.
    pub fn type_at<N: Names>(&self, names: &N, entry: usize) -> Option<TypeOf>
        ensures { result ≡ (known_by self.now).types (entry_node (N.tree names.now) entry) }
    {
        known_entry(names, &self.types, entry)
    }

    /// How a declared name may be used.
    pub fn traits_at(&self, entry: usize) -> Traits
        ensures { result ≡ (known_by self.now).traits entry }
    {
        self.uses.at(entry)
    }

    /// Whether some declaration that a name may mean has no type. Where one is open, this is said only of one that lacks an EXPRESSION or a
    /// field.
    pub fn is_typeless(&self, entry: usize) -> bool
        ensures { result ≡ (known_by self.now).typeless entry }
    {
        mark_at(&self.typeless, entry)
    }

    /// Whether some declaration that a name may mean may not be assigned. It isn't said of a name that may mean what is open.
    pub fn is_unassignable(&self, entry: usize) -> bool
        ensures { result ≡ (known_by self.now).unassignable entry }
    {
        mark_at(&self.unassignable, entry)
    }

    /// Whether declarations that a name may mean have different types, where having none differs from every type. It isn't said of a name
    /// that may mean what is open, and what is refused differs from nothing.
    pub fn types_differ(&self, entry: usize) -> bool
        ensures { result ≡ (known_by self.now).types_differ entry }
    {
        mark_at(&self.types_differ, entry)
    }

    /// Whether of the declarations that a name may mean one may be assigned and one may not. It isn't said of a name that may mean what
    /// is open.
    pub fn assignables_differ(&self, entry: usize) -> bool
        ensures { result ≡ (known_by self.now).assignables_differ entry }
    {
        mark_at(&self.assignables_differ, entry)
    }
}
