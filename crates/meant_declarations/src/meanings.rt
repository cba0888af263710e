//! What holds of the declarations that a declared name may mean.

ghost use Rattle.std.specs.Prelude.{◌≡◌, ◌↔◌, ◌&&◌, ℕ, true, length, IfOk};
ghost use Rattle.lisa_tree.specs.Declarations.{entries, what_at};
ghost use Rattle.graph_paths.specs.Paths.{saw};
ghost use Rattle.least_fixed_points.specs.Settles.{entry};
ghost use Rattle.meant_declarations.specs.Meant.{IsFound, Differ};
ghost use Rattle.meant_declarations.specs.Meanings.{Meant, AreMeanings, SomeLedTo};
ghost use Rattle.meant_declarations.specs.Walks.{is_declaration};

use crate::differing::{found_values, mixed};
use crate::directly::is_declaration;
use crate::sources::reference_sources;
use crate::walking::{are_some, is_marked, origins};
use graph_paths::reversed;
use lisa_tree::Names;
use lisa_words::NoMemory;
use std::alloc::{AllocError, Global};
use std::marker::Model;

/// To what the references of a description lead, both ways: to some of their direct meanings, from which the others are reached. It is to be used with the names from which it was made.
#[derive(Drop)]
pub struct Meanings {
    next: Vec<Vec<usize>>,
    back: Vec<Vec<usize>>,
}

impl Model for Meanings {
    ghost Value = { Meant };

    ghost view = { λ m. record { next = m.next.items; back = m.back.items } };
}

// The marks on declarations, without those on references.
fn marked_declarations<N: Names>(
    alloc: Global,
    names: &N,
    marked: &[bool],
) -> Result<Vec<bool>, AllocError>
    ensures { IfOk result (λ starts. (i : ℕ) → saw starts.items i ≡ (saw marked.now i && is_declaration (what_at (N.tree names.now) i))) }
{
    let mut starts = Vec::new(alloc);
    for entry in 0..names.entry_count() {
        starts.push(is_marked(marked, entry) && is_declaration(names.what_at(entry)))?;
    }
    Ok(starts)
}

impl Meanings {
    /// Looks up to what each reference leads.
    pub fn make<N: Names>(alloc: Global, names: &N) -> Result<Meanings, NoMemory>
        ensures { IfOk result (λ m. AreMeanings (N.tree names.now) m) }
    {
        let next = reference_sources(alloc, names)?;
        let back = reversed(alloc, &next)?;
        Ok(Meanings { next, back })
    }

    /// To which of what they directly mean the declared names lead.
    pub fn sources(&self) -> &[Vec<usize>]
        ensures { result.now ≡ self.now.next }
    {
        &self.next
    }

    /// For each declared name a marked declaration that it may mean, if there is one. Marks on references count nothing. The time is in
    /// proportion to the declared names and the edges between them.
    pub fn find<N: Names>(
        &self,
        alloc: Global,
        names: &N,
        marked: &[bool],
    ) -> Result<Vec<Option<usize>>, NoMemory>
        requires { AreMeanings (N.tree names.now) self.now }
        ensures length { IfOk result (λ found. length found.items ≡ length (entries (N.tree names.now))) }
        ensures exact { IfOk result (λ found. (i : ℕ) → IsFound (N.tree names.now) marked.now i (entry found.items i)) }
    {
        let starts = marked_declarations(alloc, names, marked)?;
        let found = origins(alloc, &self.back, &starts)?;
        Ok(found)
    }

    /// For each declared name whether it is marked or leads to a marked one, references among them, in the same time.
    pub fn reach<N: Names>(
        &self,
        alloc: Global,
        names: &N,
        marked: &[bool],
    ) -> Result<Vec<bool>, NoMemory>
        requires { AreMeanings (N.tree names.now) self.now }
        ensures length { IfOk result (λ reached. length reached.items ≡ length (entries (N.tree names.now))) }
        ensures exact { IfOk result (λ reached. (i : ℕ) → (saw reached.items i ≡ true) ↔ SomeLedTo (N.tree names.now) (λ j. saw marked.now j ≡ true) i) }
    {
        let found = origins(alloc, &self.back, marked)?;
        let reached = are_some(alloc, &found)?;
        Ok(reached)
    }

    /// For each declared name whether two declarations that it may mean have values that aren't equal, in the same time. Values of
    /// references count nothing.
    pub fn differ<N: Names, T: Eq + Copy>(
        &self,
        alloc: Global,
        names: &N,
        values: &[Option<T>],
    ) -> Result<Vec<bool>, NoMemory>
        requires { AreMeanings (N.tree names.now) self.now }
        ensures length { IfOk result (λ differ. length differ.items ≡ length (entries (N.tree names.now))) }
        ensures exact { IfOk result (λ differ. (i : ℕ) → (saw differ.items i ≡ true) ↔ Differ (N.tree names.now) T.PartialEq.eq (entry values.now) i) }
    {
        let known = are_some(alloc, values)?;
        let found = self.find(alloc, names, &known)?;
        let own = found_values(alloc, values, &found)?;
        let mixed = mixed(alloc, &self.next, &own)?;
        self.reach(alloc, names, &mixed)
    }
}
