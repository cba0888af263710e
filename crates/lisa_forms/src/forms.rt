//! What an accepted description unfolds to.

ghost use Rattle.std.specs.Prelude.{◌≡◌, ◌≤◌, length};
ghost use Rattle.description_sizes.specs.activation_trees.Places.{AreParentsBefore};

use crate::way::Way;
use description_sizes::Occurrence;
use form_patterns::Form;
use form_promises::Item;

/// The forms of a description's instructions, its occurrences, and its items.
#[derive(Drop)]
pub struct Forms {
    /// The forms, aliases among them, in the order of their numbers.
    pub forms: Vec<Form>,
    /// For each form whether no operation in it is an alias.
    pub plain: Vec<bool>,
    /// The occurrences, in the order of their numbers.
    pub occurrences: Vec<Occurrence>,
    pub(crate) ways: Vec<Way>,
    /// The items: registers, boundary fields, words of stages, and activation bits.
    pub items: Vec<Item>,
    /// How many bits an instruction has, where there is a root.
    pub width: Option<u32>,
    ghost level: { length plain.items ≡ length forms.items },
    ghost few: { length forms.items ≤ 1024 },
    ghost all_ways: { length ways.items ≡ length occurrences.items },
    ghost before: { AreParentsBefore occurrences.items },
}
