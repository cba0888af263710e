//! Which declared names may be no value, and what is known of the declarations that they may mean.

ghost use Rattle.std.specs.Prelude.{◌≡◌, ◌||◌, ◌&&◌, Some};
ghost use Rattle.std.specs.Option.{is_some};
ghost use Rattle.graph_paths.specs.Paths.{saw};
ghost use Rattle.least_fixed_points.specs.Settles.{entry};
ghost use Rattle.lisa_tree.specs.Declarations.{what_at};
ghost use Rattle.lisa_tree.specs.Paths.{entry_node};
ghost use Rattle.description_types.specs.Codings.{AreCodings};
ghost use Rattle.description_types.specs.Kinds.{is_incomplete};
ghost use Rattle.description_types.specs.Uses.{traits_by};
ghost use Rattle.description_types.specs.Known.{has_no_type, is_assignable};
ghost use Rattle.description_types.specs.Tables.{apart, unfit};

use crate::codings::coding_at;
use crate::lookups::{known_entry, lacks_expression, mark_at};
use crate::meant::Property;
use crate::refused::is_apart;
use crate::uses::UseTables;
use crate::values::{Assignable, CodedName, TypeOf};
use lisa_tree::{Names, What};

/// The declared names that may be no value by their traits alone.
#[derive(Drop)]
pub(crate) struct Apart<'a> {
    pub uses: &'a UseTables,
}

impl<'a> Property for Apart<'a> {
    ghost holds = { λ c. apart (traits_by c.uses.now) };

    fn holds(&self, entry: usize) -> bool {
        is_apart(self.uses.at(entry))
    }
}

/// All declared names that may be no value.
#[derive(Drop)]
pub(crate) struct Unfit<'a> {
    pub uses: &'a UseTables,
    /// Those that have no type.
    pub typeless: &'a [bool],
}

impl<'a> Property for Unfit<'a> {
    ghost holds = { λ c. unfit (traits_by c.uses.now) (saw c.typeless.now) };

    fn holds(&self, entry: usize) -> bool {
        mark_at(self.typeless, entry) || is_apart(self.uses.at(entry))
    }
}

/// The declarations that lack an EXPRESSION or a field.
#[derive(Drop)]
pub(crate) struct Incomplete<'a, N: Names> {
    pub names: &'a N,
    /// How declared names stand in codings.
    pub codings: &'a [CodedName],
    ghost coded: { AreCodings (N.tree names.now) codings.now },
}

fn is_typeless(value: TypeOf) -> bool
    ensures { result ≡ has_no_type (Some value) }
{
    match value {
        TypeOf::NoType => true,
        _ => false,
    }
}

impl<'a, N: Names> Property for Incomplete<'a, N> {
    ghost holds = { λ c i. is_incomplete (N.tree c.names.now) i (what_at (N.tree c.names.now) i) };

    fn holds(&self, entry: usize) -> bool {
        match self.names.what_at(entry) {
            None | Some(What::Reference) => false,
            Some(What::Group(choice)) | Some(What::Instance(choice)) => {
                lacks_expression(self.names, self.names.plain_at(choice))
            }
            Some(What::Label) => is_typeless(coding_at(self.codings, entry).label),
        }
    }
}

/// The declared names of which it is known that they have no type.
#[derive(Drop)]
pub(crate) struct Typeless<'a, N> {
    pub names: &'a N,
    pub types: &'a [Option<TypeOf>],
}

impl<'a, N: Names> Property for Typeless<'a, N> {
    ghost holds = { λ c i. has_no_type (entry c.types.now (entry_node (N.tree c.names.now) i)) };

    fn holds(&self, entry: usize) -> bool {
        match known_entry(self.names, self.types, entry) {
            Some(TypeOf::NoType) => true,
            _ => false,
        }
    }
}

/// The declared names of which it is known that they may be assigned, or that they may not.
#[derive(Drop)]
pub(crate) struct Assigned<'a, N> {
    pub names: &'a N,
    pub assignables: &'a [Option<Assignable>],
    pub may: bool,
}

impl<'a, N: Names> Property for Assigned<'a, N> {
    ghost holds = { λ c i. is_assignable c.may (entry c.assignables.now (entry_node (N.tree c.names.now) i)) };

    fn holds(&self, entry: usize) -> bool {
        match known_entry(self.names, self.assignables, entry) {
            Some(Assignable::Yes) => self.may,
            Some(Assignable::No) => !self.may,
            _ => false,
        }
    }
}

/// The declared names that may mean what is incomplete, or, where they are settled, what has no type.
#[derive(Drop)]
pub(crate) struct Lacking<'a, N> {
    pub names: &'a N,
    pub types: &'a [Option<TypeOf>],
    /// Those that may mean what is incomplete.
    pub incomplete: &'a [bool],
    /// Those that may mean what has no type.
    pub typeless: &'a [bool],
}

impl<'a, N: Names> Property for Lacking<'a, N> {
    ghost holds = { λ c i. saw c.incomplete.now i || (saw c.typeless.now i && is_some (entry c.types.now (entry_node (N.tree c.names.now) i))) };

    fn holds(&self, entry: usize) -> bool {
        mark_at(self.incomplete, entry)
            || mark_at(self.typeless, entry) && known_entry(self.names, self.types, entry).is_some()
    }
}

/// The declared names that have a value.
#[derive(Drop)]
pub(crate) struct Settled<'a, T, N> {
    pub names: &'a N,
    pub table: &'a [Option<T>],
}

impl<'a, T: Copy, N: Names> Property for Settled<'a, T, N> {
    ghost holds = { λ c i. is_some (entry c.table.now (entry_node (N.tree c.names.now) i)) };

    fn holds(&self, entry: usize) -> bool {
        known_entry(self.names, self.table, entry).is_some()
    }
}
