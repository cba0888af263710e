//! How occurrences stand to a form.

ghost use Rattle.std.specs.Prelude.{◌≡◌, is_some};
ghost use Rattle.scene_paths.specs.lisa_forms.Standings.{beside, matched, matched_child, stood};
ghost use Rattle.scene_paths.specs.Parts.{part_tree};
ghost use Rattle.occurrence_choices.specs.Standings.{activation, told};

use crate::way::Way;
use scene_paths::Part;

/// How an occurrence stands to a form.
#[derive(Clone, Copy)]
pub(crate) enum Standing<'a> {
    /// The form doesn't choose it.
    Unchosen,
    /// The form chooses it, and no part of the form has it.
    Apart,
    /// The form chooses it as the operation of this part.
    At(Part<'a>),
}

impl<'a> Standing<'a> {
    pub(crate) fn is_chosen(self) -> bool
        ensures { result ≡ is_some (told self.entry) }
    {
        match self {
            Standing::Unchosen => false,
            Standing::Apart | Standing::At(_) => true,
        }
    }
}

// A part of a form, where it has this operation.
fn at(part: Part<'_>, operation: usize) -> Standing<'_>
    ensures { told result ≡ matched (part_tree part.entry) operation }
{
    if part.operation() == operation {
        Standing::At(part)
    } else {
        Standing::Unchosen
    }
}

// What is activated by the child at a place in the coding of what stands so.
fn at_child(above: Standing<'_>, place: usize, operation: usize) -> Standing<'_>
    ensures { told result ≡ matched_child (told above.entry) place operation }
{
    match above {
        Standing::At(part) => match part.child(place) {
            Some(child) => at(child, operation),
            None => Standing::Unchosen,
        },
        _ => above,
    }
}

// What is activated by a name that is no child in that coding.
fn beside(above: Standing<'_>) -> Standing<'_>
    ensures { told result ≡ beside (told above.entry) }
{
    match above {
        Standing::Unchosen => Standing::Unchosen,
        _ => Standing::Apart,
    }
}

// How an occurrence of this operation stands to a form, by the way in which it is activated, and by how its activator stands.
pub(crate) fn stood<'a>(
    way: Way,
    whole: Part<'a>,
    operation: usize,
    above: Standing<'a>,
) -> Standing<'a>
    ensures { told result ≡ stood (activation way) (part_tree whole.entry) operation (told above.entry) }
{
    match way {
        Way::Outside => Standing::Unchosen,
        Way::Top => at(whole, operation),
        Way::Child(place) => at_child(above, place, operation),
        Way::Apart => beside(above),
    }
}
