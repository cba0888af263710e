// Words and their kinds.
ghost use Rattle.std.specs.Prelude.{◌≡◌, ◌+◌, ◌-◌, ◌^◌, ◌<◌, ◌≤◌, pos, negsuc};

/// How the bits of a word are read: as they stand, or in two's complement.
#[derive(Clone, Copy, Debug, PartialEq, Eq)]
pub enum Kind {
    Unsigned,
    Signed,
}

/// A whole number from 0 to 2^width - 1, at a width from 1 to 64.
#[derive(Clone, Copy, Debug, PartialEq, Eq)]
pub struct Word {
    pub bits: u64,
    pub width: u32,
    pub ghost at_least_one: { 1 ≤ width },
    pub ghost at_most_64: { width ≤ 64 },
    pub ghost fits: { bits < 2 ^ width },
}
