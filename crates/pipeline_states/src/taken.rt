//! Items with their places, to which a machine goes back.

ghost use Rattle.std.specs.Prelude.{◌≡◌, ◌<◌, ℕ, slice_index};
ghost use Rattle.pipeline_states.specs.Taken.{is_bit, is_word, bit_in, word_in};

use item_layouts::ItemPlace;
use lisa_activation::Shows;

/// Items, each with its place.
#[derive(Clone, Copy)]
pub struct Taken<'s> {
    pub places: &'s [ItemPlace],
    pub items: &'s [u64],
}

fn is_bit(place: &ItemPlace, stage: u32, occurrence: u32) -> bool
    ensures { result ≡ is_bit stage occurrence place.now }
{
    match place {
        ItemPlace::Bit(s, k) => u32::from(*s) == stage && *k == occurrence,
        _ => false,
    }
}

fn is_word(place: &ItemPlace, stage: u32) -> bool
    ensures { result ≡ is_word stage place.now }
{
    match place {
        ItemPlace::Word(s) => u32::from(*s) == stage,
        _ => false,
    }
}

impl<'s> Shows for Taken<'s> {
    ghost shown = { λ t. bit_in t.places.now t.items.now };

    fn stands(&self, stage: u32, occurrence: u32) -> bool {
        self.places.iter().zip(self.items).any(|(place, value)| is_bit(place, stage, occurrence)
            && *value != 0)
    }
}

impl<'s> Taken<'s> {
    // The word of a stage; 0 where it has none.
    fn word(&self, stage: u32) -> u64
        ensures { result ≡ word_in self.now.places.now self.now.items.now stage }
    {
        self.places
            .iter()
            .zip(self.items)
            .fold(0, |word, (place, value)| {
                if is_word(place, stage) { *value } else { word }
            })
    }

    /// The words of all stages.
    pub fn words(&self) -> [u64; 8]
        ensures { (stage : ℕ) → stage < 8 → slice_index result stage ≡ word_in self.now.places.now self.now.items.now stage }
    {
        let mut words = [0; 8];
        for stage in 0..8 {
            words[stage as usize] = self.word(stage);
        }
        words
    }
}
