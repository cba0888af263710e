//! Locals and their temps.
ghost use Rattle.std.specs.Prelude.{◌≡◌, [], OnOk, length, option_map, take};
ghost use Rattle.std.specs.Map.{lookup};
ghost use Rattle.lisa_tree.specs.Same.{same_name};
ghost use Rattle.lowered_values.specs.Code.{plain};
ghost use Rattle.lowered_statements.specs.Scopes.{entered, local_operand};
ghost use Rattle.lowered_statements.specs.Code.{local_of, scope_of};

use crate::local_temps::LocalTemp;
use lisa_words::{Name, NoMemory};
use lowered_values::Source;
use std::alloc::Global;
use step_pieces::Leaf;

impl LocalTemp {
    /// The operand that is read where the local is.
    pub fn source(self) -> Source
        ensures { plain result ≡ local_operand (local_of self) }
    {
        Source {
            at: Leaf::Temp(self.temp),
            kind: self.kind,
            width: self.width,
        }
    }
}

/// A local with its name.
#[derive(Debug, Drop)]
pub struct Entry {
    pub name: Name,
    pub local: LocalTemp,
}

/// The locals that are in scope, the latest last.
#[derive(Debug, Drop)]
pub struct Locals {
    pub entries: Vec<Entry>,
}

impl Locals {
    /// No locals.
    pub fn new(alloc: Global) -> Locals
        ensures { scope_of result ≡ [] }
    {
        Locals {
            entries: Vec::new(alloc),
        }
    }

    /// One local more.
    pub fn enter(&mut self, name: &Name, local: LocalTemp) -> Result<(), NoMemory>
        ensures { OnOk result (scope_of self.new ≡ entered (scope_of self.old) name.now (local_of local)) }
    {
        let name = name.clone()?;
        self.entries.push(Entry { name, local })?;
        Ok(())
    }

    /// The local of a name, the first in scope.
    #[tactic(auto, using(crate::proofs::Named::local_found, crate::proofs::Named::local_past))]
    pub fn find(&self, name: &Name) -> Option<LocalTemp>
        ensures { option_map local_of result ≡ lookup (same_name name.now) (scope_of self.now) }
    {
        'each: for entry in &self.entries {
            if *name == entry.name {
                return Some(entry.local);
            }
        }
        None
    }

    /// How many locals there are.
    pub fn count(&self) -> usize
        ensures { result ≡ length (scope_of self.now) }
    {
        self.entries.len()
    }

    /// Lets go of the locals but the first ones.
    pub fn leave(&mut self, count: usize)
        ensures { scope_of self.new ≡ take count (scope_of self.old) }
    {
        self.entries.truncate(count);
    }
}
