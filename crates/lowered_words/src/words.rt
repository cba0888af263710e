//! What is known of the words of a description's instructions.

ghost use Rattle.lisa_tree.specs.Descriptions.{description_tree};
ghost use Rattle.lowered_words.specs.Kept.{HasWays, HasParts, HasPatterns, HasChoices};

use crate::table::Table;
use crate::way_at::Chosen;
use pattern_tables::BitPattern;
use scene_paths::Described;

/// The ways of a description's plain forms, each once, with the fields of their parts; the literal bits of the forms; and by which way each
/// occurrence past the root is chosen. No look-up takes memory, and none goes over all ways or forms.
#[derive(Drop)]
pub struct Words<'a> {
    pub described: &'a Described<'a>,
    pub(crate) table: Table<'a>,
    pub(crate) patterns: Vec<BitPattern>,
    pub(crate) choices: Vec<Option<Chosen>>,
    ghost ways: { HasWays (description_tree described.now) table.links.keys },
    ghost parts: { HasParts (description_tree described.now) table.parts.items },
    ghost bits: { HasPatterns (description_tree described.now) patterns.items },
    ghost chosen: { HasChoices (description_tree described.now) choices.items },
}
