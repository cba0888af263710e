//! What operations declare by a name.

ghost use Rattle.std.specs.Prelude.{◌≡◌, ◌++◌, IfOk, OnOk};
ghost use Rattle.std.specs.Option.{option_to_list};
ghost use Rattle.lisa_tree.specs.Declarations.{is_reference, declared_at};
ghost use Rattle.meant_declarations.specs.Meanings.{declared_by};
ghost use Rattle.meant_declarations.specs.Walks.{is_declaration};

use lisa_tree::{Names, What};
use lisa_words::Name;
use std::alloc::{AllocError, Global};

/// Whether a declared name is a reference.
pub(crate) fn is_reference(what: Option<What>) -> bool
    ensures { result ≡ is_reference what }
{
    match what {
        Some(What::Reference) => true,
        _ => false,
    }
}

/// Whether there is a declared name, which is no reference.
pub(crate) fn is_declaration(what: Option<What>) -> bool
    ensures { result ≡ is_declaration what }
{
    match what {
        None | Some(What::Reference) => false,
        _ => true,
    }
}

// Adds what an operation declares by a name.
fn add_declared<N: Names>(
    names: &N,
    operation: usize,
    name: &Name,
    found: &mut Vec<usize>,
) -> Result<(), AllocError>
    ensures { OnOk result (found.new.items ≡ found.old.items ++ option_to_list (declared_at (N.tree names.now) operation name.now)) }
{
    if let Some(entry) = names.declared_at(operation, name) {
        found.push(entry)?;
    }
    Ok(())
}

/// What operations declare by a name.
#[tactic(auto, using(crate::proofs::Direct::one_operation, crate::proofs::Direct::regroup))]
pub(crate) fn declared_by<N: Names>(
    alloc: Global,
    names: &N,
    name: &Name,
    operations: &[usize],
) -> Result<Vec<usize>, AllocError>
    ensures { IfOk result (λ found. found.items ≡ declared_by (N.tree names.now) name.now operations.now) }
{
    let mut found = Vec::new(alloc);
    for &operation in operations {
        add_declared(names, operation, name, &mut found)?;
    }
    Ok(found)
}
