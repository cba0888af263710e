// One edge of a compiled module, which takes no memory.
ghost use Rattle.std.specs.Prelude.{◌≡◌, ◌≤◌, ◌+◌, ◌++◌, [], length, fold, slice_index, slice_index_or, slice_set};
ghost use Rattle.std.specs.Vec.{vec_len, vec_capacity};
ghost use Rattle.verilog_clock.specs.Compiled.{rows, code_value, nets_values, act_updates, acts_updates, act_most, acts_most};

use crate::code::{Act, Code, Net, Update};
use crate::operations::{complement, is_true, negate, operate};

// The value at a place, or 0.
fn at(values: &[u64], place: usize) -> u64
    ensures { result ≡ slice_index values.now place }
{
    values.get(place).copied().unwrap_or(0)
}

// The cell of an array at an index, or 0.
pub fn cell_at(cells: &[Vec<u64>], array: usize, index: u64) -> u64
    ensures { result ≡ slice_index (slice_index_or (rows cells.now) array []) index }
{
    match cells.get(array) {
        Some(row) => at(row, index as usize),
        None => 0,
    }
}

/// The value of an expression.
pub fn evaluate(code: &Code, values: &[u64], cells: &[Vec<u64>]) -> u64
    ensures { result ≡ code_value values.now (rows cells.now) code.now }
{
    match code {
        Code::Number(value) => *value,
        Code::Value(place) => at(values, *place),
        Code::Cell(array, index) => cell_at(cells, *array, evaluate(index, values, cells)),
        Code::Complement(length, a) => complement(*length, evaluate(a, values, cells)),
        Code::Negate(a) => negate(evaluate(a, values, cells)),
        Code::Two(operator, length, a, b) => {
            let left = evaluate(a, values, cells);
            let right = evaluate(b, values, cells);
            operate(*operator, *length, left, right)
        }
        Code::Choose(test, this, other) => {
            if is_true(evaluate(test, values, cells)) {
                evaluate(this, values, cells)
            } else {
                evaluate(other, values, cells)
            }
        }
    }
}

/// Appends values, for which there is room.
pub fn append_all(values: &mut Vec<u64>, more: &[u64])
    requires { vec_len values.old + length more.now ≤ vec_capacity values.old }
    ensures items { values.new.items ≡ values.old.items ++ more.now }
    ensures len { vec_len values.new ≡ vec_len values.old + length more.now }
    ensures room { vec_capacity values.old ≤ vec_capacity values.new }
{
    let _ = values.extend_from_slice(more);
}

/// Appends the values of wires, for which there is room.
pub fn settle(nets: &[Net], values: &mut Vec<u64>, cells: &[Vec<u64>])
    requires { vec_len values.old + length nets.now ≤ vec_capacity values.old }
    ensures items { values.new.items ≡ nets_values (rows cells.now) values.old.items nets.now }
    ensures room { vec_capacity values.old ≤ vec_capacity values.new }
{
    'each: for net in nets {
        let value = net.length.cut(evaluate(&net.value, values, cells));
        values.push_reserved(value);
    }
}

/// Appends what the actions are to write, for which there is room. All is taken on the same values.
#[cycle(collected)]
pub fn collect(acts: &[Act], values: &[u64], cells: &[Vec<u64>], updates: &mut Vec<Update>)
    requires { vec_len updates.old + acts_most acts.now ≤ vec_capacity updates.old }
    ensures items { updates.new.items ≡ updates.old.items ++ acts_updates values.now (rows cells.now) acts.now }
    ensures len { vec_len updates.new ≤ vec_len updates.old + acts_most acts.now }
    ensures room { vec_capacity updates.old ≤ vec_capacity updates.new }
{
    'each: for act in acts {
        collect_one(act, values, cells, updates);
    }
}

#[cycle(collected)]
fn collect_one(act: &Act, values: &[u64], cells: &[Vec<u64>], updates: &mut Vec<Update>)
    requires { vec_len updates.old + act_most act.now ≤ vec_capacity updates.old }
    ensures items { updates.new.items ≡ updates.old.items ++ act_updates values.now (rows cells.now) act.now }
    ensures len { vec_len updates.new ≤ vec_len updates.old + act_most act.now }
    ensures room { vec_capacity updates.old ≤ vec_capacity updates.new }
{
    match act {
        Act::Set(place, length, value) => {
            let value = length.cut(evaluate(value, values, cells));
            updates.push_reserved(Update::Item(*place, value));
        }
        Act::Put(array, index, length, value) => {
            let index = evaluate(index, values, cells);
            let value = length.cut(evaluate(value, values, cells));
            updates.push_reserved(Update::Cell(*array, index, value));
        }
        Act::If(test, this, other) => {
            if is_true(evaluate(test, values, cells)) {
                collect(this, values, cells, updates);
            } else {
                collect(other, values, cells, updates);
            }
        }
    }
}
