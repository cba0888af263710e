//! What is assigned.

ghost use Rattle.std.specs.Prelude.{◌≡◌};
ghost use Rattle.typed_values.specs.Words.{typed_word};
ghost use Rattle.typed_values.specs.Effects.{in_kind, like};

use crate::values::Value;
use lisa_words::Kind;

/// All that is assigned to a place: its value, and its number where it is a literal.
#[derive(Clone, Copy, Debug, PartialEq, Eq)]
pub struct Whole {
    pub literal: Option<u64>,
    pub value: Value,
}

impl Whole {
    /// The value in the kind of the place, which a literal takes.
    pub fn in_kind(self, kind: Kind) -> Value
        ensures { typed_word result ≡ in_kind self kind }
    {
        match self.literal {
            Some(number) => Value::number(kind, number),
            None => self.value,
        }
    }

    /// The value as one of the type of another, whose place it takes.
    pub fn like(self, old: Value) -> Value
        ensures { typed_word result ≡ like (typed_word old) (in_kind self) }
    {
        Value {
            kind: old.kind,
            word: self.in_kind(old.kind).fitted(old.word.width),
        }
    }
}
