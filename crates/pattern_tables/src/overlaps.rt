//! Plain forms that overlap.

ghost use Rattle.std.specs.Prelude.{◌≡◌, ◌<◌, ℕ, List, length, IfSome, IfNone};
ghost use Rattle.instruction_trees.specs.Bits.{Frame};
ghost use Rattle.pattern_tables.specs.Patterns.{AllStand, IsPlain, Clash, AreApart};
ghost use Rattle.pattern_tables.specs.Overlaps.{AnswersOverlap};
ghost use Rattle.pattern_tables.specs.Clashes.{IsFirstClash, IsClashWith};

use crate::bit_pattern::{BitPattern, common_word};

/// Two forms by their numbers, and a word of both.
#[derive(Clone, Copy, Debug, PartialEq, Eq)]
pub struct Overlap {
    pub first: usize,
    pub second: usize,
    pub word: u64,
}

// The first overlap of this form with a later one.
fn overlap_with(patterns: &[BitPattern], plain: &[bool], first: usize) -> Option<Overlap>
    requires level { length plain.now ≡ length patterns.now }
    requires within { first < length patterns.now }
    requires plain { IsPlain plain.now first }
    ensures none { IfNone result ((j : ℕ) → Clash patterns.now plain.now first j → ⊥) }
    ensures found { IfSome result (IsClashWith patterns.now plain.now first) }
{
    'later: for second in first + 1..patterns.len() {
        if plain[second] {
            if let Some(word) = common_word(patterns[first], patterns[second]) {
                return Some(Overlap {
                    first,
                    second,
                    word,
                });
            }
        }
    }
    None
}

/// The first two different plain forms that have a word in common: the least first one, and with it the least second one.
pub fn first_overlap(patterns: &[BitPattern], plain: &[bool]) -> Option<Overlap>
    requires { length plain.now ≡ length patterns.now }
    ensures overlap { (width : ℕ) (frames : List Frame) → AllStand width frames patterns.now → AnswersOverlap frames plain.now result }
    ensures apart { IfNone result (AreApart patterns.now plain.now) }
    ensures found { IfSome result (IsFirstClash patterns.now plain.now) }
{
    'forms: for first in 0..patterns.len() {
        if plain[first] {
            if let Some(overlap) = overlap_with(patterns, plain, first) {
                return Some(overlap);
            }
        }
    }
    None
}
