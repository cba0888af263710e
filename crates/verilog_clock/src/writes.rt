// The writes of an edge, and what takes them back.
ghost use Rattle.std.specs.Prelude.{◌≡◌, ◌↔◌, IsTrue, ◌≤◌, ◌<◌, ◌+◌, ◌^◌, ◌∷◌, [], ℕ, List, All, length, fold, map, slice_index, slice_index_or, slice_set};
ghost use Rattle.std.specs.Vec.{vec_len, vec_capacity};
ghost use Rattle.lisa_engine.specs.State.{State};
ghost use Rattle.lisa_engine.specs.Shape.{AreCells};
ghost use Rattle.lisa_engine.specs.Touches.{Tracks, set_cell, put_back};
ghost use Rattle.lisa_engine.specs.declared.parts.ArrayItem.{ArrayItem};
ghost use Rattle.verilog_clock.specs.Compiled.{rows, applied};
ghost use Rattle.verilog_clock.specs.Named.{IsFor};
ghost use Rattle.verilog_clock.specs.Writes.{state_of};

use crate::code::Update;
use crate::edges::cell_at;
use lisa_engine::{ArrayItem, Touch};

// Sets the value at a place, if there is one.
pub fn set_value(values: &mut [u64], place: usize, value: u64)
    ensures { values.new ≡ slice_set values.old place value }
{
    if place < values.len() {
        values[place] = value;
    }
}

// Sets a cell, if it is there.
fn set_one(cells: &mut [Vec<u64>], array: usize, index: usize, value: u64)
    ensures cells { rows cells.new ≡ set_cell (rows cells.old) array index value }
{
    if array < cells.len() && index < cells[array].len() {
        cells[array][index] = value;
    }
}

fn is_below(index: u64, depth: u32) -> bool
    ensures value { IsTrue result ↔ (index < depth) }
    ensures small { IsTrue result → index < 2 ^ 32 }
{
    index < u64::from(depth)
}

// Sets a cell of an array, if it is there, and notes its value before.
fn put_cell(
    arrays: &[ArrayItem],
    cells: &mut [Vec<u64>],
    touches: &mut Vec<Touch>,
    array: usize,
    index: u64,
    value: u64,
)
    requires shape { AreCells arrays.now (rows cells.old) }
    requires few { length arrays.now ≤ 1024 }
    requires fits { (item : ArrayItem) → array < length arrays.now → value < 2 ^ (slice_index_or arrays.now array item).width }
    requires room { vec_len touches.old + 1 ≤ vec_capacity touches.old }
    ensures cells { rows cells.new ≡ set_cell (rows cells.old) array index value }
    ensures shape { AreCells arrays.now (rows cells.new) }
    ensures touches { (before : List (List ℕ)) → Tracks arrays.now before (rows cells.old) touches.old.items → Tracks arrays.now before (rows cells.new) touches.new.items }
    ensures len { vec_len touches.new ≤ vec_len touches.old + 1 }
    ensures room { vec_capacity touches.old ≤ vec_capacity touches.new }
{
    if array >= arrays.len() {
        return;
    }
    let item = &arrays[array];
    if !is_below(index, item.depth) {
        return;
    }
    let before = cell_at(cells, array, index);
    set_one(cells, array, index as usize, value);
    touches.push_reserved(Touch {
        array: array as u32,
        index: index as u32,
        before,
    });
}

// Makes an update.
fn make_update(
    update: Update,
    arrays: &[ArrayItem],
    values: &mut [u64],
    cells: &mut [Vec<u64>],
    touches: &mut Vec<Touch>,
)
    requires shape { AreCells arrays.now (rows cells.old) }
    requires few { length arrays.now ≤ 1024 }
    requires fits { IsFor arrays.now update }
    requires room { vec_len touches.old + 1 ≤ vec_capacity touches.old }
    ensures state { state_of values.new (rows cells.new) ≡ applied (state_of values.old (rows cells.old)) update }
    ensures shape { AreCells arrays.now (rows cells.new) }
    ensures touches { (before : List (List ℕ)) → Tracks arrays.now before (rows cells.old) touches.old.items → Tracks arrays.now before (rows cells.new) touches.new.items }
    ensures len { vec_len touches.new ≤ vec_len touches.old + 1 }
    ensures room { vec_capacity touches.old ≤ vec_capacity touches.new }
{
    match update {
        Update::Item(place, value) => set_value(values, place, value),
        Update::Cell(array, index, value) => put_cell(arrays, cells, touches, array, index, value),
    }
}

/// Makes the updates in order, with the cells that they touch.
pub fn apply(
    updates: &[Update],
    arrays: &[ArrayItem],
    values: &mut [u64],
    cells: &mut [Vec<u64>],
    touches: &mut Vec<Touch>,
)
    requires shape { AreCells arrays.now (rows cells.old) }
    requires few { length arrays.now ≤ 1024 }
    requires fitting { All (IsFor arrays.now) updates.now }
    requires room { vec_len touches.old + length updates.now ≤ vec_capacity touches.old }
    requires none { touches.old.items ≡ [] }
    ensures state { state_of values.new (rows cells.new) ≡ fold applied (state_of values.old (rows cells.old)) updates.now }
    ensures touches { Tracks arrays.now (rows cells.old) (rows cells.new) touches.new.items }
    ensures room { vec_capacity touches.old ≤ vec_capacity touches.new }
{
    'each: for update in updates {
        make_update(*update, arrays, values, cells, touches);
    }
}

/// Puts the values of touches back, from the last one to the first.
pub fn take_back(cells: &mut [Vec<u64>], touches: &[Touch])
    ensures { rows cells.new ≡ put_back touches.now (rows cells.old) }
{
    let mut left = touches.len();
    'each: while left > 0 {
        left -= 1;
        let touch = touches[left];
        set_one(
            cells,
            touch.array as usize,
            touch.index as usize,
            touch.before,
        );
    }
}

/// Copies rows of the same lengths.
pub fn copy_rows(cells: &mut [Vec<u64>], from: &[Vec<u64>])
    requires { map (λ row. vec_len row) cells.old ≡ map (λ row. vec_len row) from.now }
    ensures { rows cells.new ≡ rows from.now }
{
    'each: for place in 0..from.len() {
        cells[place].copy_from_slice(&from[place]);
    }
}
