//! Where the temps and items of one thing or another stand.

ghost use Rattle.std.specs.Prelude.{◌≡◌, ◌≤◌, ◌+◌, ◌-◌, ◌*◌, IfOk};
ghost use Rattle.lowered_words.specs.scene_paths.Lookups.{tree_of};
ghost use Rattle.lowered_resources.specs.Places.{field_width};
ghost use Rattle.lowered_layouts.specs.Temps as temps;
ghost use Rattle.lowered_layouts.specs.Temps.{boundaries_at, boundary_size, controls_at};
ghost use Rattle.lowered_layouts.specs.Items.{bit_place, word_place, places_of};
ghost use Rattle.lowered_layouts.specs.Code.{positions_tree};

use crate::numbers::{number, product, sum};
use crate::positions::Positions;
use crate::spots::Spot;
use lisa_words::NoMemory;
use lowered_resources::{Placing, Told};

impl<'a> Positions<'a> {
    /// Where a row begins. The first row is that of the root's word, and that of a level's word is one more than the level. The only other
    /// answer is want of numbers for temps.
    pub fn row_base(&self, row: u32) -> Result<u32, NoMemory>
        ensures { IfOk result (λ base. base ≡ temps.row_base (positions_tree self.now) row) }
    {
        let before = product(row as usize, self.row_size as usize)?;
        number(sum(self.rows_at as usize, before)?)
    }

    // One of the two temps of a field of a boundary.
    fn field_temp(&self, boundary: usize, field: usize, which: usize) -> Result<u32, NoMemory>
        ensures { IfOk result (λ temp. temp ≡ boundaries_at (positions_tree self.now) + (boundary * boundary_size (positions_tree self.now) + (field * 2 + which))) }
    {
        let before = product(boundary, product(self.fields, 2)?)?;
        let own = sum(product(field, 2)?, which)?;
        number(sum(self.boundaries_at as usize, sum(before, own)?)?)
    }

    // One of the two temps of a level.
    fn control_temp(&self, level: usize, which: usize) -> Result<u32, NoMemory>
        ensures { IfOk result (λ temp. temp ≡ controls_at (positions_tree self.now) + ((level - 1) * 2 + which)) }
    {
        let own = sum(product(level.saturating_sub(1), 2)?, which)?;
        number(sum(self.controls_at as usize, own)?)
    }

    /// The item that has the bit of an occurrence at a level.
    pub fn bit(&self, level: u8, number: u32) -> Option<u32>
        ensures { result ≡ bit_place (positions_tree self.now) level number }
    {
        match level {
            0 => None,
            _ => self
                .items
                .get(&Spot::Bit(usize::from(level - 1), number as usize))
                .copied(),
        }
    }

    /// The item that has the word of a level.
    pub fn word(&self, level: u8) -> Option<u32>
        ensures { result ≡ word_place (positions_tree self.now) level }
    {
        match level {
            0 => None,
            _ => self.items.get(&Spot::Word(usize::from(level - 1))).copied(),
        }
    }

    /// The width of a field of boundaries; 1 where there is none of this number.
    pub(crate) fn field_width(&self, field: usize) -> u32
        ensures width { result ≡ field_width (positions_tree self.now) field }
        ensures at_least_one { 1 ≤ result }
        ensures at_most_64 { result ≤ 64 }
    {
        self.described.accepted();
        match self.described.shape_at(field) {
            None => 1,
            Some(shape) => shape.width,
        }
    }
}

impl<'a> Placing for Positions<'a> {
    ghost places = { λ positions. places_of (tree_of positions.described.now) };

    // The item of a field that isn't there is the first one.
    fn field(&self, boundary: usize, field: usize) -> u32 {
        match self.items.get(&Spot::Field(boundary, field)) {
            None => 0,
            Some(item) => *item,
        }
    }

    fn temp(&self, what: Told) -> Result<u32, NoMemory> {
        match what {
            Told::Written(boundary, field) => self.field_temp(boundary, field, 0),
            Told::Out(boundary, field) => self.field_temp(boundary, field, 1),
            Told::Stall(level) => self.control_temp(level, 0),
            Told::Flush(level) => self.control_temp(level, 1),
        }
    }
}
