//! The word that the root takes, and the conditions of activations.

ghost use Rattle.std.specs.Prelude.{◌≡◌, option_map};
ghost use Rattle.lisa_tree.specs.Expressions.{expr_tree};
ghost use Rattle.lisa_tree.specs.Operations.{sections_at, coding_in};
ghost use Rattle.scene_paths.specs.lisa_meaning.Cores.{fetch, holds, root_place};
ghost use Rattle.moment_stores.specs.Stores.{description_of, moment_of};
ghost use Rattle.scene_paths.specs.Lookups.{tree_of};

use crate::evaluation::{bare_value, is_true};
use lisa_tree::{CodingPart, Expr};
use moment_stores::Store;
use scene_paths::{Described, Path, Sight};

// The place of the word that an operation's root takes.
fn root_place<'p>(described: &'p Described<'_>, operation: usize) -> Option<&'p Expr>
    ensures { option_map (λ e. expr_tree e.now) result ≡ root_place (coding_in (sections_at (tree_of described.now) operation)) }
{
    match described.coding_part(operation) {
        Some(CodingPart::Root(place, _)) => Some(place),
        _ => None,
    }
}

/// The word that the root takes, 0 without a root.
pub fn fetch(described: &Described<'_>, store: &Store<'_>) -> u64
    requires { description_of store.now ≡ tree_of described.now }
    ensures { result ≡ fetch (tree_of described.now) (moment_of store.now) }
{
    let Some(operation) = described.root() else {
        return 0;
    };
    match root_place(described, operation) {
        None => 0,
        Some(place) => {
            let value = bare_value(
                Sight::without(described),
                &Path::Alone(operation),
                store,
                place,
            );
            value.word.bits
        }
    }
}

/// Whether the condition of an `if` of an occurrence that runs with a word is true, by its number among that one's.
pub fn holds(
    described: &Described<'_>,
    number: u32,
    test: u32,
    word: u64,
    store: &Store<'_>,
) -> bool
    requires { description_of store.now ≡ tree_of described.now }
    ensures { result ≡ holds (tree_of described.now) number test word (moment_of store.now) }
{
    is_true(
        described.sight(number, word),
        &Path::Occurrence(number),
        store,
        described.condition_of(number, test),
    )
}
