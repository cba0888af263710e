// Cells of arrays, with the touches of an edge.
ghost use Rattle.std.specs.Prelude.{◌≡◌, ◌<◌, ◌≤◌, ◌^◌, ◌+◌, [], ℕ, All, IfOk, IsTrue, false, length, map, replicate, slice_index_or};
ghost use Rattle.std.specs.Vec.{vec_len, vec_capacity};
ghost use Rattle.lisa_engine.specs.Shape.{AreCells};
ghost use Rattle.lisa_engine.specs.Touches.{IsPlaced, put_back, set_cell};
ghost use Rattle.lisa_engine.specs.declared.parts.ArrayItem.{ArrayItem};
ghost use Rattle.lisa_engine.specs.declared.parts.Touch.{Touch};
ghost use Rattle.moment_stores.specs.Rows.{rows, mark_at, all_places};
ghost use Rattle.moment_stores.specs.Cells.{is_touched, AreTracked};

use crate::row_values::{set_in, value_in};
use lisa_engine::{ArrayItem, Touch};
use lisa_words::{NoMemory, Word};
use std::alloc::{AllocError, Global};

/// The cells of arrays. Of each cell that an edge wrote it is known what it held before.
#[derive(Drop)]
pub struct Cells<'a> {
    arrays: &'a [ArrayItem],
    values: Vec<Vec<u64>>,
    marks: Vec<Vec<bool>>,
    touches: Vec<Touch>,
    ghost few: { length arrays.now < 2 ^ 32 },
    ghost tracked: { AreTracked arrays.now (rows values.items) (rows marks.items) touches.items (vec_capacity touches) },
}

// A mark for each cell.
fn make_marks(alloc: Global, cells: &[Vec<u64>]) -> Result<Vec<Vec<bool>>, AllocError>
    ensures { IfOk result (λ marks. rows marks.items ≡ map (λ row. replicate (vec_len row) false) cells.now) }
{
    let mut marks = Vec::with_capacity(alloc, cells.len())?;
    'each: for row in cells {
        marks.push(vec![in alloc; false; row.len()]?)?;
    }
    Ok(marks)
}

// How many cells there are.
fn count_cells(cells: &[Vec<u64>]) -> Result<usize, NoMemory>
    ensures { IfOk result (λ count. count ≡ all_places (rows cells.now)) }
{
    let mut count: usize = 0;
    'each: for row in cells {
        count = count.checked_add(row.len()).ok_or(NoMemory)?;
    }
    Ok(count)
}

// Notes what a cell held before the edge, unless that is noted.
fn note(
    arrays: &[ArrayItem],
    cells: &[Vec<u64>],
    marks: &mut [Vec<bool>],
    touches: &mut Vec<Touch>,
    array: usize,
    index: usize,
)
    requires few { length arrays.now < 2 ^ 32 }
    requires array { array < length cells.now }
    requires index { index < length (slice_index_or (rows cells.now) array []) }
    requires tracked { AreTracked arrays.now (rows cells.now) (rows marks.old) touches.old.items (vec_capacity touches.old) }
    ensures tracked { AreTracked arrays.now (rows cells.now) (rows marks.new) touches.new.items (vec_capacity touches.new) }
    ensures before { put_back touches.new.items (rows cells.now) ≡ put_back touches.old.items (rows cells.now) }
    ensures noted { IsTrue (is_touched touches.new.items array index) }
{
    if value_in(marks, array, index, false) {
        return;
    }
    let _depth = arrays[array].depth;
    let before = value_in(cells, array, index, 0);
    set_in(marks, array, index, true);
    touches.push_reserved(Touch {
        array: array as u32,
        index: index as u32,
        before,
    });
}

// Takes the marks of touches away.
fn clear_marks(marks: &mut [Vec<bool>], touches: &[Touch])
    requires { (array index : ℕ) → mark_at (rows marks.old) array index ≡ is_touched touches.now array index }
    ensures same { map length (rows marks.new) ≡ map length (rows marks.old) }
    ensures none { (row place : ℕ) → mark_at (rows marks.new) row place ≡ false }
{
    'each: for touch in touches {
        set_in(marks, touch.array as usize, touch.index as usize, false);
    }
}

// Puts the values of touches back, from the last one to the first.
fn take_back(cells: &mut [Vec<u64>], touches: &[Touch])
    ensures { rows cells.new ≡ put_back touches.now (rows cells.old) }
{
    let mut left = touches.len();
    'each: while left > 0 {
        left -= 1;
        let touch = touches[left];
        set_in(
            cells,
            touch.array as usize,
            touch.index as usize,
            touch.before,
        );
    }
}

// Copies rows of the same lengths.
fn copy_rows(cells: &mut [Vec<u64>], from: &[Vec<u64>])
    requires { map length (rows cells.old) ≡ map length (rows from.now) }
    ensures { rows cells.new ≡ rows from.now }
{
    'each: for place in 0..from.len() {
        cells[place].copy_from_slice(&from[place]);
    }
}

impl<'a> Cells<'a> {
    /// Cells that hold these rows, none of which was touched. There is room for a touch of each.
    pub fn make(
        alloc: Global,
        arrays: &'a [ArrayItem],
        values: Vec<Vec<u64>>,
    ) -> Result<Cells<'a>, NoMemory>
        requires { AreCells arrays.now (rows values.items) }
        ensures arrays { IfOk result (λ cells. cells.arrays.now ≡ arrays.now) }
        ensures rows { IfOk result (λ cells. rows cells.values.items ≡ rows values.items) }
        ensures touches { IfOk result (λ cells. cells.touches.items ≡ []) }
    {
        if arrays.len() >= 4294967296 {
            return Err(NoMemory);
        }
        let marks = make_marks(alloc, &values)?;
        let count = count_cells(&values)?;
        let touches = Vec::with_capacity(alloc, count)?;
        Ok(Cells {
            arrays,
            values,
            marks,
            touches,
        })
    }

    /// A cell; 0 where there is none.
    pub fn cell(&self, array: usize, index: usize) -> u64
        ensures { result ≡ slice_index_or (slice_index_or (rows self.now.values.items) array []) index 0 }
    {
        value_in(&self.values, array, index, 0)
    }

    /// Gives a cell a word of its width, if it is there, and notes what it held before the edge.
    pub fn put(&mut self, array: usize, index: usize, word: Word)
        requires { (item : ArrayItem) → array < length self.old.arrays.now → word.width ≡ (slice_index_or self.old.arrays.now array item).width }
        ensures rows { rows self.new.values.items ≡ set_cell (rows self.old.values.items) array index word.bits }
        ensures before { put_back self.new.touches.items (rows self.new.values.items) ≡ put_back self.old.touches.items (rows self.old.values.items) }
        ensures arrays { self.new.arrays.now ≡ self.old.arrays.now }
    {
        if array >= self.values.len() || index >= self.values[array].len() {
            return;
        }
        note(
            self.arrays,
            &self.values,
            &mut self.marks,
            &mut self.touches,
            array,
            index,
        );
        set_in(&mut self.values, array, index, word.bits);
    }

    /// Forgets the touches.
    pub fn forget(&mut self)
        ensures rows { self.new.values.items ≡ self.old.values.items }
        ensures touches { self.new.touches.items ≡ [] }
        ensures arrays { self.new.arrays.now ≡ self.old.arrays.now }
    {
        clear_marks(&mut self.marks, &self.touches);
        self.touches.clear();
    }

    /// Puts values back, and forgets the touches.
    pub fn retreat(&mut self, touches: &[Touch])
        requires { All (IsPlaced self.old.arrays.now) touches.now }
        ensures rows { rows self.new.values.items ≡ put_back touches.now (rows self.old.values.items) }
        ensures touches { self.new.touches.items ≡ [] }
        ensures arrays { self.new.arrays.now ≡ self.old.arrays.now }
    {
        self.forget();
        take_back(&mut self.values, touches);
    }

    /// Holds other rows, and forgets the touches.
    pub fn restart(&mut self, from: &[Vec<u64>])
        requires { AreCells self.old.arrays.now (rows from.now) }
        ensures rows { rows self.new.values.items ≡ rows from.now }
        ensures touches { self.new.touches.items ≡ [] }
        ensures arrays { self.new.arrays.now ≡ self.old.arrays.now }
    {
        self.forget();
        copy_rows(&mut self.values, from);
    }

    /// The cells that were written, in the order of their first writes, each with its value before.
    pub fn touches(&self) -> &[Touch]
        ensures { result.now ≡ self.now.touches.items }
    {
        &self.touches
    }
}
