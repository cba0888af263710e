//! References whose names aren't declared by all operations above their own.

ghost use Rattle.std.specs.Prelude.{◌≡◌, ℕ, true, IfOk};
ghost use Rattle.std.specs.Option.{is_none};
ghost use Rattle.graph_paths.specs.Paths.{saw};
ghost use Rattle.lisa_tree.specs.Declarations.{declared_at};
ghost use Rattle.meant_declarations.specs.Meanings.{AreMeanings};
ghost use Rattle.meant_declarations.specs.Lacking.{any_lacks, lacks, is_short, AreMarked};

use crate::directly::is_reference;
use crate::meanings::Meanings;
use crate::sources::{Upper, change, look_above, searched};
use crate::walking::is_marked;
use lisa_tree::Names;
use lisa_words::{Name, NoMemory};
use std::alloc::{AllocError, Global};

// Whether an operation doesn't declare a name.
fn is_undeclared<N: Names>(names: &N, name: &Name, operation: usize) -> bool
    ensures { result ≡ is_none (declared_at (N.tree names.now) operation name.now) }
{
    names.declared_at(operation, name).is_none()
}

// Whether some of these operations don't declare a name.
fn any_lacks<N: Names>(names: &N, name: &Name, operations: &[usize]) -> bool
    ensures { result ≡ any_lacks (N.tree names.now) name.now operations.now }
{
    for &operation in operations {
        if is_undeclared(names, name, operation) {
            return true;
        }
    }
    false
}

// Whether a declared name is a reference that lacks a declaration.
fn lacks<N: Names>(names: &N, entry: usize) -> bool
    ensures { result ≡ lacks (N.tree names.now) entry }
{
    if !is_reference(names.what_at(entry)) {
        return false;
    }
    match names.name_at(entry) {
        None => false,
        Some(name) => any_lacks(names, name, names.above(names.owner_at(entry))),
    }
}

// The same, as far as the name is looked up.
fn is_short<N: Names>(names: &N, upper: &Upper, entry: usize) -> bool
    ensures { result ≡ is_short (N.tree names.now) upper.now.cover upper.now.rest.items entry }
{
    if !is_reference(names.what_at(entry)) {
        return false;
    }
    match names.name_at(entry) {
        None => false,
        Some(name) => {
            let operations = searched(names, names.owner_at(entry), upper, name);
            any_lacks(names, name, operations)
        }
    }
}

// Marks to which all references lead that lack a declaration.
fn marked<N: Names>(alloc: Global, names: &N) -> Result<Vec<bool>, AllocError>
    ensures { IfOk result (λ marks. AreMarked (N.tree names.now) marks.items) }
{
    let mut marks = Vec::new(alloc);
    let mut owner = 0;
    let mut known = look_above(alloc, names, owner)?;
    for entry in 0..names.entry_count() {
        let operation = names.owner_at(entry);
        known = change(alloc, names, owner, known, operation)?;
        owner = operation;
        marks.push(is_short(names, &known, entry))?;
    }
    Ok(marks)
}

// Whether a declared name that may lack a declaration does.
fn is_lacking<N: Names>(names: &N, may_lack: &[bool], entry: usize) -> bool
    requires { (i : ℕ) → lacks (N.tree names.now) i ≡ true → saw may_lack.now i ≡ true }
    ensures { result ≡ lacks (N.tree names.now) entry }
{
    is_marked(may_lack, entry) && lacks(names, entry)
}

/// Which declared names are references whose name some operation above their own doesn't declare. The operations above each operation are
/// gone over once where there are none.
pub fn lacking_references<N: Names>(
    alloc: Global,
    names: &N,
    meanings: &Meanings,
) -> Result<Vec<bool>, NoMemory>
    requires { AreMeanings (N.tree names.now) meanings.now }
    ensures { IfOk result (λ lacking. (i : ℕ) → saw lacking.items i ≡ lacks (N.tree names.now) i) }
{
    let marks = marked(alloc, names)?;
    let may_lack = meanings.reach(alloc, names, &marks)?;
    let mut lacking = Vec::new(alloc);
    for entry in 0..names.entry_count() {
        lacking.push(is_lacking(names, &may_lack, entry))?;
    }
    Ok(lacking)
}
