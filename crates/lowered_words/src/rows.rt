//! Ways to parts, and what a row tells of them.

ghost use Rattle.std.specs.Prelude.{◌≡◌, ℕ, ◌+◌, IfOk, option_map};
ghost use Rattle.step_program.specs.Programs.{Const, Temp};
ghost use Rattle.step_pieces.specs.Drafts.{leaf_tree};
ghost use Rattle.scene_paths.specs.Lookups.{tree_of};
ghost use Rattle.lowered_words.specs.Ways.{Way, Whole, Child};
ghost use Rattle.lowered_words.specs.Choosing.{choice, way_inside};
ghost use Rattle.lowered_words.specs.Rows.{row_size, decoded_at, flag_in, flag, chosen_flag};
ghost use Rattle.lowered_words.specs.Kept.{placed};
ghost use Rattle.lowered_words.specs.Code.{words_tree, IsAt, AreAt};

use crate::way_at::{Chosen, WayAt};
use crate::words::Words;
use lisa_words::{NoMemory, Word};
use scene_paths::Described;
use step_pieces::Leaf;

/// A temp behind another one, by how many are from that one on. Where there is no number for it, memory is wanting.
pub(crate) fn temp_behind(base: u32, count: usize) -> Result<u32, NoMemory>
    ensures { IfOk result (λ temp. temp ≡ base + count) }
{
    match u32::try_from(count) {
        Err(_) => Err(NoMemory),
        Ok(count) => base.checked_add(count).ok_or(NoMemory),
    }
}

// Where the flag of a way stands.
pub(crate) fn flag_at(base: u32, place: usize) -> Result<u32, NoMemory>
    ensures { IfOk result (λ temp. temp ≡ base + 2 + place) }
{
    let flags = temp_behind(base, 2)?;
    temp_behind(flags, place)
}

// What never holds.
fn no_bit() -> Leaf
    ensures { leaf_tree result ≡ Const 1 0 }
{
    Leaf::Const(Word { bits: 0, width: 1 })
}

// Whether the word's instruction has a part by the way.
fn flag_in(base: u32, way: WayAt) -> Result<Leaf, NoMemory>
    ensures { IfOk result (λ leaf. leaf_tree leaf ≡ flag_in base way.place) }
{
    match way.place {
        None => Ok(no_bit()),
        Some(place) => {
            let temp = flag_at(base, place)?;
            Ok(Leaf::Temp(temp))
        }
    }
}

impl<'a> Words<'a> {
    /// The description with its look-ups.
    pub fn described(&self) -> &'a Described<'a>
        ensures { tree_of result.now ≡ words_tree self.now }
    {
        self.described
    }

    /// How many temps a row has. Where there are more than numbers for temps, memory is wanting.
    pub fn row_size(&self) -> Result<u32, NoMemory>
        ensures { IfOk result (λ size. size ≡ row_size (words_tree self.now)) }
    {
        temp_behind(2, self.table.links.len())
    }

    /// The way to a whole form of an operation.
    pub fn whole(&self, operation: usize) -> WayAt
        ensures { IsAt (words_tree self.now) (Whole operation) result }
    {
        self.table.whole(operation)
    }

    /// The way to what stands at a place among the children of a part, of an operation.
    pub fn child(&self, above: WayAt, place: usize, operation: usize) -> WayAt
        ensures { (w : Way) → IsAt (words_tree self.now) w above → IsAt (words_tree self.now) (Child w place operation) result }
    {
        self.table.child(above, place, operation)
    }

    /// Whether the instruction of a row's word has a part by a way.
    pub fn flag(&self, base: u32, way: WayAt) -> Result<Leaf, NoMemory>
        ensures { (w : Way) → IsAt (words_tree self.now) w way → IfOk result (λ leaf. leaf_tree leaf ≡ flag (words_tree self.now) base w) }
    {
        flag_in(base, way)
    }

    // By what an occurrence is chosen.
    fn choice(&self, occurrence: u32) -> Option<Chosen>
        ensures { result ≡ option_map (placed (words_tree self.now)) (choice (words_tree self.now) occurrence) }
    {
        let number = occurrence as usize;
        if number < self.choices.len() {
            self.choices[number]
        } else {
            None
        }
    }

    /// Whether the instruction of a row's word chooses an occurrence past the root.
    pub fn chosen(&self, base: u32, occurrence: u32) -> Result<Leaf, NoMemory>
        ensures { IfOk result (λ leaf. leaf_tree leaf ≡ chosen_flag (words_tree self.now) base occurrence) }
    {
        match self.choice(occurrence) {
            None => Ok(no_bit()),
            Some(chosen) => flag_in(base, chosen.at),
        }
    }

    /// The way to the part at which an occurrence stands. None where it stands at none.
    pub fn way_inside(&self, occurrence: u32) -> Option<WayAt>
        ensures { AreAt (words_tree self.now) (way_inside (choice (words_tree self.now) occurrence)) result }
    {
        match self.choice(occurrence) {
            Some(Chosen { at, inside: true }) => Some(at),
            _ => None,
        }
    }

    /// Whether a row's word decodes.
    pub fn decoded(&self, base: u32) -> Result<Leaf, NoMemory>
        ensures { IfOk result (λ leaf. leaf_tree leaf ≡ Temp (decoded_at base)) }
    {
        let temp = temp_behind(base, 1)?;
        Ok(Leaf::Temp(temp))
    }
}
