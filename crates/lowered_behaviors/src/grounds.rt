//! Grounds, and what is looked up in them.
ghost use Rattle.std.specs.Prelude.{◌≡◌, ℕ};
ghost use Rattle.lisa_tree.specs.declared.declared.Meaning.TheVariants.{Declared};
ghost use Rattle.description_types.specs.Types.{meant_type};
ghost use Rattle.lowered_words.specs.Code.{AreAt, words_tree};
ghost use Rattle.lowered_behaviors.specs.Settled.{types_of, types_tree};
ghost use Rattle.lowered_behaviors.specs.Standpoints.{own_way};
ghost use Rattle.lowered_behaviors.specs.Positions.{standpoint_of};
ghost use Rattle.lowered_behaviors.specs.Code.{ground_of, ground_with};

use crate::ground::Ground;
use crate::positions::{Position, way};
use crate::types::NameTypes;
use lisa_tree::Shape;
use lowered_resources::Placing;
use lowered_words::{WayAt, Words};
use std::alloc::Global;

impl<'a, P: Placing> Ground<'a, P> {
    /// Words have a width, of 1 bit where there are no instructions. Where no row is given something runs without a word.
    pub fn new(
        alloc: Global,
        words: &'a Words<'a>,
        types: &'a NameTypes<'a>,
        placing: &'a P,
        width: u32,
        row: Option<u32>,
    ) -> Ground<'a, P>
        requires { (i : ℕ) → meant_type (types_of types.now) (types_tree types.now) (Declared i) ≡ meant_type (types_of types.now) (words_tree words.now) (Declared i) }
        ensures { ground_of P.places result ≡ ground_with (words_tree words.now) (types_of types.now) (P.places placing.now) width row }
    {
        Ground {
            alloc,
            words,
            types,
            placing,
            width,
            row,
        }
    }

    /// The way by which forms reach the part that the first operation is, where it is one.
    pub(crate) fn way(&self, positions: &[Position]) -> Option<WayAt>
        ensures { AreAt (words_tree self.now.words.now) (own_way (standpoint_of (words_tree self.now.words.now) positions.now)) result }
    {
        way(self.words, positions)
    }

    /// The type of a declared name, by its number among all of them.
    pub(crate) fn shape(&self, entry: usize) -> Option<Shape>
        ensures { result ≡ meant_type (types_of self.now.types.now) (words_tree self.now.words.now) (Declared entry) }
    {
        self.types.shape(entry)
    }
}
