//! The instruction of which the operations on a path are parts.

ghost use Rattle.std.specs.Prelude.{◌≡◌, ◌<◌, ℕ, Some};
ghost use Rattle.lisa_tree.specs.Descriptions.{description_tree};
ghost use Rattle.lisa_meaning.specs.coding_tables.Instructions.{form_count};

use crate::described::Described;

/// The instruction of which operations are parts, with the word that it has; and the description.
#[derive(Clone, Copy)]
pub struct Sight<'a> {
    pub(crate) described: &'a Described<'a>,
    pub(crate) form: Option<u32>,
    pub(crate) word: u64,
    ghost within: { (k : ℕ) → form ≡ Some k → k < form_count (description_tree described.now) },
}
