//! Aliases that no plain form covers.

ghost use Rattle.std.specs.Prelude.{◌≡◌, ◌<◌, ◌↔◌, ℕ, List, length, IsTrue};
ghost use Rattle.instruction_trees.specs.Bits.{Frame};
ghost use Rattle.pattern_tables.specs.Patterns.{AllStand, Shelter};
ghost use Rattle.pattern_tables.specs.Overlaps.{AnswersUncovered};

use crate::bit_pattern::{BitPattern, covers};

fn is_covered(patterns: &[BitPattern], plain: &[bool], form: usize) -> bool
    requires level { length plain.now ≡ length patterns.now }
    requires within { form < length patterns.now }
    ensures { IsTrue result ↔ ((i : ℕ) × Shelter patterns.now plain.now i form) }
{
    'forms: for other in 0..patterns.len() {
        if plain[other] && covers(patterns[other], patterns[form]) {
            return true;
        }
    }
    false
}

/// The first form that isn't plain and is covered by no plain one.
pub fn first_uncovered(patterns: &[BitPattern], plain: &[bool]) -> Option<usize>
    requires { length plain.now ≡ length patterns.now }
    ensures { (width : ℕ) (frames : List Frame) → AllStand width frames patterns.now → AnswersUncovered frames plain.now result }
{
    'forms: for form in 0..patterns.len() {
        if !plain[form] && !is_covered(patterns, plain, form) {
            return Some(form);
        }
    }
    None
}
