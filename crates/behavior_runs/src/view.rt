//! What expressions read.

ghost use Rattle.moment_stores.specs.Fitting.{MomentFits};
ghost use Rattle.moment_stores.specs.Stores.{moment_of};
ghost use Rattle.scene_paths.specs.Sights.{sight_tree};

use moment_stores::Store;
use scene_paths::{Path, Sight};
use typed_values::Value;

/// What expressions read: a moment, with its locals or without.
#[derive(Clone, Copy)]
pub(crate) struct View<'a> {
    pub(crate) sight: Sight<'a>,
    pub(crate) store: &'a Store<'a>,
    pub(crate) has_locals: bool,
    ghost fits: { MomentFits (sight_tree sight) (moment_of store.now) },
}

/// What a name is.
#[derive(Clone, Copy)]
pub(crate) enum Named<'p> {
    Known(Value),
    /// A child. Given is the path of the operation that declares it.
    Child(Path<'p>),
}
