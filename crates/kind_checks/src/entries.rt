//! What declared names are used for.

ghost use Rattle.std.specs.Prelude.{◌≡◌};
ghost use Rattle.kind_checks.specs.Uses.{is_uncallable, is_no_operand, sorts_differ, by_sort};

use description_types::{Traits, is_apart};
use lisa_tree::What;

/// Whether a name isn't called.
pub(crate) fn is_uncallable(traits: Traits) -> bool
    ensures { result ≡ is_uncallable traits }
{
    traits.label || is_apart(traits)
}

/// Whether a child isn't coded by another operation; aliases count.
pub(crate) fn is_no_operand(traits: Traits) -> bool
    ensures { result ≡ is_no_operand traits }
{
    traits.listed_staged || traits.listed_rooted
}

/// Whether labels and children are meant.
pub(crate) fn sorts_differ(traits: Traits) -> bool
    ensures { result ≡ sorts_differ traits }
{
    traits.label && traits.child
}

/// One of three, by what a name is declared as: an instance, a group or a label. A reference is of no sort that fits.
pub(crate) fn by_sort(child: bool, group: bool, label: bool, what: Option<What>) -> bool
    ensures { result ≡ by_sort child group label what }
{
    match what {
        Some(What::Group(_)) => group,
        Some(What::Instance(_)) => child,
        Some(What::Label) => label,
        _ => true,
    }
}
