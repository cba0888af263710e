//! Masks and patterns of forms.

ghost use Rattle.std.specs.Prelude.{◌≡◌, ◌↔◌, ℕ, IsTrue, IsSome, IfSome, bit_or};
ghost use Rattle.instruction_trees.specs.Bits.{Frame, Covers};
ghost use Rattle.pattern_tables.specs.Patterns.{Stands, IsCommonWord, Agree, IsContained};

/// The literal bits of a form: a mask with ones where they stand, and the pattern that they are, with zeros elsewhere.
#[derive(Clone, Copy, Debug, PartialEq, Eq)]
pub struct BitPattern {
    pub mask: u64,
    pub pattern: u64,
}

/// A word of both forms, where there is one: its bits are 1 where either has a literal 1.
pub fn common_word(first: BitPattern, second: BitPattern) -> Option<u64>
    ensures common { (width : ℕ) (fs gs : Frame) → Stands width fs first → Stands width gs second → IsCommonWord fs gs result }
    ensures agree { IsSome result ↔ Agree first second }
    ensures word { IfSome result (λ w. w ≡ bit_or first.pattern second.pattern) }
{
    if first.pattern & second.mask == second.pattern & first.mask {
        Some(first.pattern | second.pattern)
    } else {
        None
    }
}

/// Whether the first form covers the second one: it has no literal bit that the second one hasn't.
pub fn covers(first: BitPattern, second: BitPattern) -> bool
    ensures covers { (width : ℕ) (fs gs : Frame) → Stands width fs first → Stands width gs second → IsTrue result ↔ Covers fs gs }
    ensures contained { IsTrue result ↔ IsContained first second }
{
    first.mask & second.mask == first.mask && second.pattern & first.mask == first.pattern
}
