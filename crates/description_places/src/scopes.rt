//! The locals that are in scope.

ghost use Rattle.std.specs.Prelude.{◌≡◌, ◌≤◌, List, ℕ, [], OnOk, take, length};
ghost use Rattle.description_places.specs.declared.scopes.Local.{Local};
ghost use Rattle.description_places.specs.Scopes.{local_named, entered};

use lisa_tree::Shape;
use lisa_words::Name;
use name_tables::NamedValues;
use std::alloc::{AllocError, Global};
use std::marker::Model;

/// A local: its type, and whether it is the variable of a loop, which its body only reads.
#[derive(Clone, Copy, Debug, PartialEq, Eq)]
pub struct Local {
    pub shape: Shape,
    pub counts: bool,
}

/// The locals in scope, found by their names.
///
/// Contracts see it as the list of names with their locals, in the order of their declarations.
#[derive(Drop)]
pub struct Scope {
    locals: NamedValues<Local>,
}

impl Model for Scope {
    ghost Value = { List (List ℕ × Local) };

    ghost view = { λ s. s.locals.entries.items };
}

impl Scope {
    /// A scope without locals.
    pub fn new(alloc: Global) -> Scope
        ensures { result ≡ [] }
    {
        Scope {
            locals: NamedValues::new(alloc),
        }
    }

    /// The local of this name.
    #[tactic(auto, using(crate::proofs::Locals::looked_up))]
    pub fn find(&self, name: &Name) -> Option<Local>
        ensures { result ≡ local_named name.now self.now }
    {
        self.locals.get(name)
    }

    /// How many locals there are.
    pub fn len(&self) -> usize
        ensures { result ≡ length self.now }
    {
        self.locals.len()
    }

    // Adds a local, if none has its name.
    #[tactic(auto, using(crate::proofs::Locals::entered_new, crate::proofs::Locals::entered_old))]
    pub(crate) fn enter(&mut self, name: &Name, local: Local) -> Result<(), AllocError>
        ensures { OnOk result (self.new ≡ entered self.old name.now local) }
    {
        if self.find(name).is_some() {
            return Ok(());
        }
        self.locals.put(name, local)
    }

    // Lets go of the last locals but so many.
    pub(crate) fn leave(&mut self, count: usize)
        ensures { self.new ≡ take count self.old }
    {
        self.locals.truncate(count);
    }
}
