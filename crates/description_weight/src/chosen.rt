//! What declared names may choose.

ghost use Rattle.std.specs.Prelude.{◌≡◌};
ghost use Rattle.graph_paths.specs.Paths.{targets};
ghost use Rattle.lisa_tree.specs.Declarations.{what_at};
ghost use Rattle.text_counts.specs.References.{chosen_by};

use access_counts::Choices;
use lisa_tree::{Names, What};
use text_counts::Meanings;

/// The operations that declared names may choose, by what references may.
#[derive(Drop)]
pub(crate) struct Chosen<'a, N> {
    pub names: &'a N,
    pub meanings: &'a Meanings,
}

impl<'a, N: Names> Choices for Chosen<'a, N> {
    ghost chosen = { λ c i. chosen_by (N.tree c.names.now) (targets c.meanings.now) i (what_at (N.tree c.names.now) i) };

    fn chosen(&self, name: usize) -> &[usize] {
        match self.names.what_at(name) {
            Some(What::Group(choice)) | Some(What::Instance(choice)) => self.names.plain_at(choice),
            Some(What::Reference) => self.meanings.of_reference(name),
            _ => &[],
        }
    }
}
