//! The widths of the temps that last through an edge.

ghost use Rattle.std.specs.Prelude.{◌≡◌, ◌++◌, ◌∷◌, [], replicate, IfOk, OnOk};
ghost use Rattle.std.specs.List.{flat_map, range_with_len};
ghost use Rattle.lowered_resources.specs.Places.{field_width};
ghost use Rattle.lowered_words.specs.Rows.{row_widths};
ghost use Rattle.lowered_layouts.specs.Temps.{time_widths, boundary_widths, lasting_widths};
ghost use Rattle.lowered_layouts.specs.Code.{positions_tree};

use crate::numbers::sum;
use crate::positions::Positions;
use lisa_words::NoMemory;
use std::alloc::Global;

// Adds so many temps of one bit.
#[tactic(auto, using(crate::proofs::Lasted::more_bits))]
fn add_bits(widths: &mut Vec<u32>, count: usize) -> Result<(), NoMemory>
    ensures { OnOk result (widths.new.items ≡ widths.old.items ++ replicate count 1) }
{
    let length = sum(widths.len(), count)?;
    widths.resize(length, 1)?;
    Ok(())
}

// Adds the same temps so many times.
#[tactic(auto, using(item_layouts::proofs::Ranges::first_left, item_layouts::proofs::Ranges::none_left, item_layouts::proofs::Ranges::regroup))]
fn add_times(widths: &mut Vec<u32>, block: &[u32], times: usize) -> Result<(), NoMemory>
    ensures { OnOk result (widths.new.items ≡ widths.old.items ++ flat_map (λ _. block.now) (range_with_len 0 times)) }
{
    for _time in 0..times {
        widths.extend_from_slice(block)?;
    }
    Ok(())
}

impl<'a> Positions<'a> {
    // The temps of time: one bit each, but the slot, which holds a word.
    fn time_widths(&self, alloc: Global) -> Result<Vec<u32>, NoMemory>
        ensures { IfOk result (λ widths. widths.items ≡ time_widths (positions_tree self.now) self.now.width) }
    {
        let mut widths = Vec::new(alloc);
        widths.push(1)?;
        widths.push(self.width)?;
        add_bits(&mut widths, self.boundaries_at as usize - 2)?;
        Ok(widths)
    }

    // Adds the temps of a field of a boundary: whether it got bits, and which.
    fn add_field(&self, field: usize, widths: &mut Vec<u32>) -> Result<(), NoMemory>
        ensures { OnOk result (widths.new.items ≡ widths.old.items ++ (1 ∷ field_width (positions_tree self.now) field ∷ [])) }
    {
        widths.push(1)?;
        widths.push(self.field_width(field))?;
        Ok(())
    }

    // The temps of a boundary.
    #[tactic(auto, using(item_layouts::proofs::Ranges::first_left, item_layouts::proofs::Ranges::none_left, item_layouts::proofs::Ranges::regroup))]
    fn boundary_widths(&self, alloc: Global) -> Result<Vec<u32>, NoMemory>
        ensures { IfOk result (λ widths. widths.items ≡ boundary_widths (positions_tree self.now) self.now.width) }
    {
        let mut widths = Vec::new(alloc);
        for field in 0..self.fields {
            self.add_field(field, &mut widths)?;
        }
        Ok(widths)
    }

    // The temps of a row: the word, whether it decodes, and which ways its instruction has.
    fn row_widths(&self, alloc: Global) -> Result<Vec<u32>, NoMemory>
        ensures { IfOk result (λ widths. widths.items ≡ row_widths (positions_tree self.now) self.now.width) }
    {
        let mut widths = Vec::new(alloc);
        widths.push(self.width)?;
        widths.push(1)?;
        add_bits(&mut widths, self.row_size as usize - 2)?;
        Ok(widths)
    }

    /// The widths of the temps that last through an edge. Those of a program begin with them.
    pub fn lasting_widths(&self, alloc: Global) -> Result<Vec<u32>, NoMemory>
        ensures { IfOk result (λ widths. widths.items ≡ lasting_widths (positions_tree self.now) self.now.width) }
    {
        let boundary = self.boundary_widths(alloc)?;
        let row = self.row_widths(alloc)?;
        let stages = usize::from(self.stages);
        let mut widths = self.time_widths(alloc)?;
        add_times(&mut widths, &boundary, stages.saturating_sub(1))?;
        add_bits(&mut widths, stages * 2)?;
        add_times(&mut widths, &row, stages + 2)?;
        Ok(widths)
    }
}
