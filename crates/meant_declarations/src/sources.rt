//! Direct meanings of references from which the others are reached.
//!
//! Where an operation above a reference's own has a reference of that name too, what all operations above that one declare is reached over
//! it. So the name is looked up in that one, and in those that aren't above it. Where fewer operations declare the name at all, it is
//! looked up in those of them that are above the reference's own.

ghost use Rattle.std.specs.Prelude.{◌≡◌, ◌∷◌, ◌++◌, [], cond, IfOk, IfSome, OnOk, Some, true, false};
ghost use Rattle.graph_paths.specs.Paths.{is_in};
ghost use Rattle.lisa_tree.specs.Declarations.{is_reference, what_at, owner_at, entry_name_at};
ghost use Rattle.meant_declarations.specs.Meanings.{AreSources};
ghost use Rattle.meant_declarations.specs.Sources.{IsUpper, AreOuter, IsCovered, hands_on, searched, source_row, AreSome};
ghost use Rattle.meant_declarations.specs.Declaring.{AreNoted, IsAround};

use crate::declaring::{common_numbers, noted_for, operations_by_name, set_of};
use crate::directly::{declared_by, is_reference};
use lisa_tree::Names;
use lisa_words::Name;
use std::alloc::{AllocError, Global};
use std::collections::{BTreeMap, BTreeSet};

/// An operation above another one with fewer above itself, and the operations above the other without those above it, and all of them.
#[derive(Drop)]
pub(crate) struct Upper {
    pub cover: Option<usize>,
    pub rest: Vec<usize>,
    pub all: BTreeSet<usize>,
}

// Of the operations above one that have fewer above themselves one that has the most.
fn cover<N: Names>(names: &N, operation: usize) -> Option<usize>
    ensures { IfSome result (λ q. IsUpper (N.tree names.now) operation q) }
{
    let all = names.above(operation);
    let mut most = 0;
    let mut found = None;
    for &upper in all {
        let count = names.above(upper).len();
        if most <= count && count < all.len() {
            most = count;
            found = Some(upper);
        }
    }
    found
}

// The place from one on where a node stands in a row, if the row is in order.
fn place_of(row: &[usize], from: usize, node: usize) -> usize {
    for place in from..row.len() {
        if row[place] >= node {
            return place;
        }
    }
    row.len()
}

// Whether a node is to be kept: it is the last one, or not seen to stand in the row.
#[tactic(auto, using(crate::proofs::OuterNodes::stands_there))]
fn is_outer(row: &[usize], place: usize, node: usize, last: usize) -> bool
    ensures row { result ≡ false → is_in node row.now ≡ true }
    ensures last { result ≡ false → node ≡ last → ⊥ }
{
    if node == last || place >= row.len() {
        return true;
    }
    row[place] != node
}

fn add_if(outer: &mut Vec<usize>, node: usize, is_outer: bool) -> Result<(), AllocError>
    ensures { OnOk result (outer.new.items ≡ outer.old.items ++ cond is_outer (node ∷ []) []) }
{
    if is_outer {
        outer.push(node)?;
    }
    Ok(())
}

// The nodes without those that are seen to stand in a row, but for one of them.
fn outer_nodes(
    alloc: Global,
    row: &[usize],
    nodes: &[usize],
    last: usize,
) -> Result<Vec<usize>, AllocError>
    ensures { IfOk result (λ outer. AreOuter row.now last nodes.now outer.items) }
{
    let mut outer = Vec::new(alloc);
    let mut place = 0;
    for &node in nodes {
        place = place_of(row, place, node);
        add_if(&mut outer, node, is_outer(row, place, node, last))?;
    }
    Ok(outer)
}

/// Looks at the operations above one.
pub(crate) fn look_above<N: Names>(
    alloc: Global,
    names: &N,
    operation: usize,
) -> Result<Upper, AllocError>
    ensures { IfOk result (λ upper. IsAround (N.tree names.now) operation upper.cover upper.rest.items upper.all) }
{
    let all = set_of(alloc, names.above(operation))?;
    match cover(names, operation) {
        None => Ok(Upper {
            cover: None,
            rest: Vec::new(alloc),
            all,
        }),
        Some(cover) => {
            let rest = outer_nodes(alloc, names.above(cover), names.above(operation), cover)?;
            Ok(Upper {
                cover: Some(cover),
                rest,
                all,
            })
        }
    }
}

/// The same, where those above another operation have been looked at.
pub(crate) fn change<N: Names>(
    alloc: Global,
    names: &N,
    owner: usize,
    known: Upper,
    operation: usize,
) -> Result<Upper, AllocError>
    requires { IsAround (N.tree names.now) owner known.cover known.rest.items known.all }
    ensures { IfOk result (λ changed. IsAround (N.tree names.now) operation changed.cover changed.rest.items changed.all) }
{
    if operation == owner {
        return Ok(known);
    }
    let changed = look_above(alloc, names, operation)?;
    Ok(changed)
}

// Whether an operation hands a name on.
fn hands_on<N: Names>(names: &N, cover: Option<usize>, name: &Name) -> bool
    ensures { result ≡ hands_on (N.tree names.now) name.now cover }
{
    match cover {
        None => false,
        Some(operation) => match names.declared_at(operation, name) {
            None => false,
            Some(entry) => is_reference(names.what_at(entry)),
        },
    }
}

/// In which operations the name of a reference is looked up.
pub(crate) fn searched<'a, N: Names>(
    names: &'a N,
    operation: usize,
    upper: &'a Upper,
    name: &Name,
) -> &'a [usize]
    ensures { result.now ≡ searched (N.tree names.now) operation upper.now.cover upper.now.rest.items name.now }
{
    if hands_on(names, upper.cover, name) {
        upper.rest.as_slice()
    } else {
        names.above(operation)
    }
}

// What is found for a declared name in the operations in which it is looked up.
fn source_row<N: Names>(
    alloc: Global,
    names: &N,
    upper: &Upper,
    entry: usize,
) -> Result<Vec<usize>, AllocError>
    ensures { IfOk result (λ row. row.items ≡ source_row (N.tree names.now) upper.now.cover upper.now.rest.items entry) }
{
    if !is_reference(names.what_at(entry)) {
        return Ok(Vec::new(alloc));
    }
    match names.name_at(entry) {
        None => Ok(Vec::new(alloc)),
        Some(name) => {
            let operations = searched(names, names.owner_at(entry), upper, name);
            declared_by(alloc, names, name, operations)
        }
    }
}

// What is found for a reference by this name, by way of all that declare the name.
fn row_by_name<N: Names>(
    alloc: Global,
    names: &N,
    table: &BTreeMap<Name, Vec<usize>>,
    upper: &Upper,
    entry: usize,
    name: &Name,
) -> Result<Vec<usize>, AllocError>
    requires noted { AreNoted (N.tree names.now) table.now }
    requires around { IsAround (N.tree names.now) (owner_at (N.tree names.now) entry) upper.now.cover upper.now.rest.items upper.now.all }
    requires reference { is_reference (what_at (N.tree names.now) entry) ≡ true }
    requires name { entry_name_at (N.tree names.now) entry ≡ Some name.now }
    ensures { IfOk result (λ row. AreSome (N.tree names.now) entry row.items) }
{
    let operations = common_numbers(alloc, noted_for(table, name), &upper.all)?;
    let row = declared_by(alloc, names, name, &operations)?;
    Ok(row)
}

// Whether a name is noted fewer times than it would be looked up.
fn is_noted_seldom<N: Names>(
    names: &N,
    table: &BTreeMap<Name, Vec<usize>>,
    upper: &Upper,
    entry: usize,
    name: &Name,
) -> bool {
    let operations = searched(names, names.owner_at(entry), upper, name);
    noted_for(table, name).len() < operations.len()
}

// Some of what a declared name directly means, from which the rest is reached.
fn some_row<N: Names>(
    alloc: Global,
    names: &N,
    table: &BTreeMap<Name, Vec<usize>>,
    upper: &Upper,
    entry: usize,
) -> Result<Vec<usize>, AllocError>
    requires noted { AreNoted (N.tree names.now) table.now }
    requires around { IsAround (N.tree names.now) (owner_at (N.tree names.now) entry) upper.now.cover upper.now.rest.items upper.now.all }
    ensures { IfOk result (λ row. AreSome (N.tree names.now) entry row.items) }
{
    if is_reference(names.what_at(entry)) {
        if let Some(name) = names.name_at(entry) {
            if is_noted_seldom(names, table, upper, entry, name) {
                return row_by_name(alloc, names, table, upper, entry, name);
            }
        }
    }
    let row = source_row(alloc, names, upper, entry)?;
    Ok(row)
}

/// For each reference some of what it directly means, from which the rest is reached. The operations above each operation are gone over
/// once, and for each reference these or those that declare its name, whichever are fewer.
pub fn reference_sources<N: Names>(alloc: Global, names: &N) -> Result<Vec<Vec<usize>>, AllocError>
    ensures { IfOk result (λ next. AreSources (N.tree names.now) next.items) }
{
    let table = operations_by_name(alloc, names)?;
    let mut next = Vec::new(alloc);
    let mut owner = 0;
    let mut known = look_above(alloc, names, owner)?;
    for entry in 0..names.entry_count() {
        let operation = names.owner_at(entry);
        known = change(alloc, names, owner, known, operation)?;
        owner = operation;
        next.push(some_row(alloc, names, &table, &known, entry)?)?;
    }
    Ok(next)
}
