//! Words with their types.

ghost use Rattle.std.specs.Prelude.{◌≡◌, ◌≤◌};
ghost use Rattle.typed_values.specs.Words.{typed_word, word_width, fitted, as_shape, zero_of, truth, is_zero, number_value};

use description_types::number_shape;
use lisa_tree::Shape;
use lisa_words::{Kind, Word, cut, widen};

/// A word with the kind by which its bits are read.
#[derive(Clone, Copy, Debug, PartialEq, Eq)]
pub struct Value {
    pub kind: Kind,
    pub word: Word,
}

// The width of a type. One that isn't from 1 to 64 counts as 1.
fn word_width(width: u32) -> u32
    ensures value { result ≡ word_width width }
    ensures least { 1 ≤ result }
    ensures most { result ≤ 64 }
{
    if width >= 1 && width <= 64 { width } else { 1 }
}

impl Value {
    /// The bits at another width: cut, or widened by the value's own kind.
    pub fn fitted(self, width: u32) -> Word
        requires least { 1 ≤ width }
        requires most { width ≤ 64 }
        ensures bits { result.bits ≡ fitted (typed_word self) width }
        ensures width { result.width ≡ width }
    {
        if width < self.word.width {
            cut(self.word, width)
        } else {
            widen(self.word, self.kind, width)
        }
    }

    /// The value as one of another type. A width that isn't from 1 to 64, which no accepted description has, counts as 1.
    pub fn as_shape(self, shape: Shape) -> Value
        ensures { typed_word result ≡ as_shape shape (typed_word self) }
    {
        Value {
            kind: shape.kind,
            word: self.fitted(word_width(shape.width)),
        }
    }

    /// 0 of a type.
    pub fn zero_of(shape: Shape) -> Value
        ensures { typed_word result ≡ zero_of shape }
    {
        let width = word_width(shape.width);
        Value {
            kind: shape.kind,
            word: Word { bits: 0, width },
        }
    }

    /// A truth value.
    pub fn truth(holds: bool) -> Value
        ensures { typed_word result ≡ truth holds }
    {
        Value {
            kind: Kind::Unsigned,
            word: Word {
                bits: if holds { 1 } else { 0 },
                width: 1,
            },
        }
    }

    /// Whether it is 0, which is no true value.
    pub fn is_zero(self) -> bool
        ensures { result ≡ is_zero (typed_word self) }
    {
        self.word.bits == 0
    }

    /// A number, in the least width that holds it in a kind.
    pub fn number(kind: Kind, value: u64) -> Value
        ensures { typed_word result ≡ number_value kind value }
    {
        let shape = number_shape(kind, value);
        Value {
            kind: shape.kind,
            word: Word {
                bits: value,
                width: shape.width,
            },
        }
    }
}
