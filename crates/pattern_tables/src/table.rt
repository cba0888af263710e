//! The forms of one mask.

ghost use Rattle.std.specs.Prelude.{◌≡◌, ◌<◌, ◌^◌, length};
ghost use Rattle.pattern_tables.specs.Rising.{IsRising};

mod contents;

/// The forms of one mask: their patterns in rising order, and beside each the number of its form.
///
/// A pattern is seen by `probe` alone.
#[derive(Drop)]
pub struct PatternTable {
    mask: u64,
    patterns: Vec<u64>,
    forms: Vec<u32>,
    ghost rising: { IsRising patterns.items },
    ghost level: { length forms.items ≡ length patterns.items },
    ghost few: { length patterns.items < 2 ^ 32 },
}
