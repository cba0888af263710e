//! In what expressions and behaviours are lowered.
ghost use Rattle.std.specs.Prelude.{◌≡◌, ℕ};
ghost use Rattle.lisa_tree.specs.declared.declared.Meaning.TheVariants.{Declared};
ghost use Rattle.description_types.specs.Types.{meant_type};
ghost use Rattle.lowered_words.specs.Code.{words_tree};
ghost use Rattle.lowered_behaviors.specs.Settled.{types_of, types_tree};

use crate::types::NameTypes;
use lowered_words::Words;
use std::alloc::Global;

/// A description with the types of its names and with its words, where its things stand, and the first temp of the row of the word with
/// which something runs.
#[derive(Drop)]
pub struct Ground<'a, P> {
    pub(crate) alloc: Global,
    pub(crate) words: &'a Words<'a>,
    pub(crate) types: &'a NameTypes<'a>,
    pub(crate) placing: &'a P,
    pub(crate) width: u32,
    pub(crate) row: Option<u32>,
    ghost same_types: { (i : ℕ) → meant_type (types_of types.now) (types_tree types.now) (Declared i) ≡ meant_type (types_of types.now) (words_tree words.now) (Declared i) },
}
