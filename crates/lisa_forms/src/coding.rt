//! What is kept of a description's codings.

ghost use Rattle.std.specs.Prelude.{◌≡◌, ◌+◌, ◌^◌, ◌<◌, ◌≤◌, ℕ, List, length, slice_index_or};
ghost use Rattle.instruction_trees.specs.Values.{AreWithin, StandsBelow, sum_of, weigh};
ghost use Rattle.form_patterns.specs.Rows.{pairs_at};
ghost use Rattle.lisa_forms.specs.Rows.{pattern_at};

use lisa_words::Name;
use pattern_tables::{BitPattern, Decoder, Place};

/// The literal bits of a description's forms, no two plain ones of which have a word in common, and where their fields stand.
#[derive(Drop)]
pub struct Coding {
    pub(crate) patterns: Vec<BitPattern>,
    pub(crate) plain: Vec<bool>,
    pub(crate) places: Vec<Vec<Place>>,
    pub(crate) decoder: Decoder,
    pub(crate) width: Option<u32>,
    pub(crate) uncovered: Option<Name>,
    ghost level: { length places.items ≡ length patterns.items },
    ghost inside: { (k i : ℕ) → k < length patterns.items → i < length (pairs_at places.items k) → StandsBelow 64 (slice_index_or (pairs_at places.items k) i (0, 0)) },
    ghost in_word: { (k : ℕ) (vs : List ℕ) → k < length patterns.items → AreWithin vs (pairs_at places.items k) → pattern_at patterns.items k + sum_of (weigh vs (pairs_at places.items k)) < 2 ^ 64 },
}
