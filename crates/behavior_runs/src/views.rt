//! Moments that expressions read.

ghost use Rattle.std.specs.Prelude.{◌≡◌, option_map};
ghost use Rattle.std.specs.Map.{lookup};
ghost use Rattle.lisa_tree.specs.Same.{same_name};
ghost use Rattle.typed_values.specs.Words.{typed_word};
ghost use Rattle.scene_paths.specs.lisa_meaning.Moments.{bare};
ghost use Rattle.moment_stores.specs.Stores.{description_of, moment_of};
ghost use Rattle.scene_paths.specs.Sights.{sight_tree};
ghost use Rattle.behavior_runs.specs.Views.{moment_seen};

use crate::view::View;
use lisa_words::Name;
use moment_stores::Store;
use scene_paths::Sight;
use typed_values::Value;

impl<'a> View<'a> {
    // A moment with its locals.
    #[tactic(auto, using(crate::proofs::Reading::same_fits))]
    pub(crate) fn new(sight: Sight<'a>, store: &'a Store<'a>) -> View<'a>
        requires { description_of store.now ≡ sight_tree sight }
        ensures sight { result.sight ≡ sight.entry }
        ensures moment { moment_seen result ≡ moment_of store.now }
    {
        store.fits();
        View {
            sight,
            store,
            has_locals: true,
        }
    }

    // The same moment without locals.
    pub(crate) fn bare(self) -> View<'a>
        ensures sight { result.sight ≡ self.entry.sight }
        ensures moment { moment_seen result ≡ bare (moment_seen self.entry) }
    {
        View {
            sight: self.sight,
            store: self.store,
            has_locals: false,
        }
    }

    // The value of a local.
    pub(crate) fn local(&self, name: &Name) -> Option<Value>
        ensures { option_map typed_word result ≡ lookup (same_name name.now) (moment_seen self.now).locals }
    {
        if self.has_locals {
            self.store.local(name)
        } else {
            None
        }
    }
}
