//! The values of fields in words.

ghost use Rattle.std.specs.Prelude.{◌≡◌};
ghost use Rattle.instruction_trees.specs.Trees.{slice};
ghost use Rattle.pattern_tables.specs.Places.{pair_of, IsInside};

/// Where a field stands: its lowest bit, and its width.
#[derive(Clone, Copy, Debug, PartialEq, Eq)]
pub struct Place {
    pub lsb: u32,
    pub width: u32,
}

/// The value of the field that stands there.
pub fn field(place: Place, word: u64) -> u64
    requires { IsInside place }
    ensures { result ≡ slice word (pair_of place) }
{
    (word >> place.lsb) & (u64::MAX >> (64 - place.width))
}
