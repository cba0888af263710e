//! What holds of some declaration that a name may mean.

ghost use Rattle.std.specs.Prelude.{◌≡◌, ◌<◌, ◌↔◌, ℕ, Bool, true, length, map, IfOk};
ghost use Rattle.std.specs.Option.{is_some};
ghost use Rattle.graph_paths.specs.Paths.{saw};
ghost use Rattle.meant_declarations.specs.Meanings.{AreMeanings};
ghost use Rattle.description_types.specs.Tables.{AreMeant};

use lisa_tree::Names;
use lisa_words::NoMemory;
use meant_declarations::Meanings;
use std::alloc::{AllocError, Global};

/// Something that may hold of declared names.
pub(crate) trait Property {
    ghost holds: { Self → ℕ → Bool };

    /// Whether it holds of a declared name, by its number.
    fn holds(&self, entry: usize) -> bool
        ensures { result ≡ holds self.now entry };
}

/// Of which of so many declared names it holds.
pub(crate) fn marks<P: Property>(
    alloc: Global,
    property: &P,
    count: usize,
) -> Result<Vec<bool>, AllocError>
    ensures length { IfOk result (λ marks. length marks.items ≡ count) }
    ensures exact { IfOk result (λ marks. (i : ℕ) → i < count → saw marks.items i ≡ P.holds property.now i) }
{
    let mut marks = Vec::with_capacity(alloc, count)?;
    for entry in 0..count {
        marks.push(property.holds(entry))?;
    }
    Ok(marks)
}

// Which of them are there.
fn present<T: Copy>(alloc: Global, found: &[Option<T>]) -> Result<Vec<bool>, AllocError>
    ensures { IfOk result (λ marks. marks.items ≡ map is_some found.now) }
{
    let mut marks = Vec::with_capacity(alloc, found.len())?;
    for value in found {
        marks.push(value.is_some())?;
    }
    Ok(marks)
}

/// Of which declared names it holds that they may mean a declaration with a property.
pub(crate) fn some_meant<N: Names, P: Property>(
    alloc: Global,
    names: &N,
    meanings: &Meanings,
    property: &P,
) -> Result<Vec<bool>, NoMemory>
    requires { AreMeanings (N.tree names.now) meanings.now }
    ensures { IfOk result (λ marks. AreMeant (N.tree names.now) (λ j. P.holds property.now j ≡ true) (saw marks.items)) }
{
    let own = marks(alloc, property, names.entry_count())?;
    let found = meanings.find(alloc, names, &own)?;
    let meant = present(alloc, &found)?;
    Ok(meant)
}
