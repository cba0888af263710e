//! What is given to places.
ghost use Rattle.std.specs.Prelude.{◌≡◌};
ghost use Rattle.lowered_values.specs.Code.{plain};
ghost use Rattle.lowered_statements.specs.Code.{given_of};

use lisa_words::Kind;
use lowered_values::{Source, number};

/// All that is assigned to a place: its operand, and its number where it is a literal.
#[derive(Clone, Copy, Debug, PartialEq, Eq)]
pub struct Given {
    pub literal: Option<u64>,
    pub value: Source,
}

impl Given {
    /// The operand in the kind of the place, which a literal takes.
    pub fn in_kind(self, kind: Kind) -> Source
        ensures { plain result ≡ given_of self kind }
    {
        match self.literal {
            Some(value) => number(kind, value),
            None => self.value,
        }
    }
}
