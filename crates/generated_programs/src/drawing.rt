//! Values that are drawn.

ghost use Rattle.std.specs.Prelude.{◌≡◌, ◌%◌, ◌^◌, OnOk, map};
ghost use Rattle.pattern_tables.specs.Places.{pair_of};
ghost use Rattle.generated_programs.specs.Draws.{drawn_values};

use pattern_tables::Place;
use rand_core::utils::NextWord;
use std::alloc::AllocError;

// As many low bits of a word as a field has.
fn low_bits(word: u64, width: u32) -> u64
    ensures { result ≡ word % 2 ^ width }
{
    if width < 64 {
        word % (1 << width)
    } else {
        word
    }
}

/// Draws a value for each field of these places, one word for each.
pub(crate) fn draw_values<G: NextWord<u64>>(
    generator: &mut G,
    places: &[Place],
    values: &mut Vec<u64>,
) -> Result<(), AllocError>
    ensures { OnOk result ((values.new.items, generator.new) ≡ drawn_values G.step (map pair_of places.now) generator.old) }
{
    values.clear();
    for place in places {
        values.push(low_bits(generator.next_word(), place.width))?;
    }
    Ok(())
}
