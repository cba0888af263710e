//! What is written to a store.

ghost use Rattle.std.specs.Prelude.{◌≡◌, ◌+◌, ◌≤◌, ◌++◌, ◌∷◌, [], Some, true, length, take, map, slice_set, option_map};
ghost use Rattle.typed_values.specs.Words.{typed_word};
ghost use Rattle.typed_values.specs.Effects.{in_kind, counter_value};
ghost use Rattle.behavior_plans.specs.Terms.{term_tree};
ghost use Rattle.behavior_plans.specs.Spots.{spot_tree};
ghost use Rattle.behavior_plans.specs.Holdings.{put_word, with_registers, with_slots, with_slot, with_cell, with_out, with_stall, with_flush};
ghost use Rattle.behavior_plans.specs.Effects.{spot_put, spot_writes, first_word};
ghost use Rattle.behavior_plans.specs.Stores.{holdings_of, Leaves};

use crate::spots::Spot;
use crate::store::Store;
use crate::terms::Term;
use crate::values::{evaluate, whole, word_at, wrapped};
use lisa_engine::Touch;
use lisa_tree::Shape;
use lisa_words::Kind;
use typed_values::{Value, Whole};

// Another word at a place, of whatever type; where there is no such place nothing changes.
fn set_word(words: &mut Vec<Value>, place: u32, value: Value)
    ensures { map typed_word words.new.items ≡ slice_set (map typed_word words.old.items) place (typed_word value) }
{
    if (place as usize) < words.len() {
        words[place as usize] = value;
    }
}

// Another word at a place, in the type of the one before.
fn put_word(words: &mut Vec<Value>, place: u32, given: Whole)
    ensures { map typed_word words.new.items ≡ put_word (map typed_word words.old.items) place (in_kind given) }
{
    let old = word_at(words, place);
    set_word(words, place, given.like(old));
}

/// Gives a slot a word, of whatever type.
pub(crate) fn set_slot(store: &mut Store, slot: u32, value: Value)
    ensures { Leaves store.old store.new (with_slot slot (typed_word value) (holdings_of store.old)) 0 }
{
    set_word(&mut store.slots, slot, value);
}

fn put_slot(store: &mut Store, slot: u32, given: Whole)
    ensures { Leaves store.old store.new (with_slots (put_word (holdings_of store.old).slots slot (in_kind given)) (holdings_of store.old)) 0 }
{
    put_word(&mut store.slots, slot, given);
}

fn put_register(store: &mut Store, place: u32, given: Whole)
    ensures { Leaves store.old store.new (with_registers (put_word (holdings_of store.old).registers place (in_kind given)) (holdings_of store.old)) 0 }
{
    put_word(&mut store.registers, place, given);
}

// Notes a touch, where there is room for it.
#[tactic(auto, using(std::proofs::lemmas::List::take_more_set))]
fn note(touched: &mut Vec<Touch>, count: &mut usize, touch: Touch)
    ensures noted { count.old + 1 ≤ length touched.old.items → take count.new touched.new.items ≡ take count.old touched.old.items ++ touch ∷ [] }
    ensures full { length touched.old.items ≤ count.old → take count.new touched.new.items ≡ take count.old touched.old.items }
    ensures count { count.new ≤ count.old + 1 }
    ensures room { length touched.new.items ≡ length touched.old.items }
{
    if *count < touched.len() {
        touched[*count] = touch;
        *count += 1;
    }
}

// Writes a cell, and notes what it held; where there is no such cell nothing changes.
fn set_cell(store: &mut Store, array: u32, index: u32, bits: u64)
    ensures { Leaves store.old store.new (with_cell array index bits (holdings_of store.old)) 1 }
{
    let row = array as usize;
    let place = index as usize;
    if row >= store.cells.len() || place >= store.cells[row].len() {
        return;
    }
    let before = store.cells[row][place];
    store.cells[row][place] = bits;
    let touch = Touch {
        array,
        index,
        before,
    };
    note(&mut store.touched, &mut store.count, touch);
}

// The bits of a field; where there is no such field nothing changes.
fn set_out(outs: &mut Vec<Option<u64>>, place: u32, bits: u64)
    ensures { outs.new.items ≡ slice_set outs.old.items place (Some bits) }
{
    if (place as usize) < outs.len() {
        outs[place as usize] = Some(bits);
    }
}

fn put_out(store: &mut Store, place: u32, bits: u64)
    ensures { Leaves store.old store.new (with_out place bits (holdings_of store.old)) 0 }
{
    set_out(&mut store.outs, place, bits);
}

// A mark at a place; where there is no such place nothing changes.
fn mark(marks: &mut Vec<bool>, place: u32)
    ensures { marks.new.items ≡ slice_set marks.old.items place true }
{
    if (place as usize) < marks.len() {
        marks[place as usize] = true;
    }
}

/// Holds the stage of a level.
pub(crate) fn stall(store: &mut Store, level: u32)
    ensures { Leaves store.old store.new (with_stall level (holdings_of store.old)) 0 }
{
    mark(&mut store.stalled, level);
}

/// Drops what stands in the stage of a level.
pub(crate) fn flush(store: &mut Store, level: u32)
    ensures { Leaves store.old store.new (with_flush level (holdings_of store.old)) 0 }
{
    mark(&mut store.flushed, level);
}

/// Gives a place a value, in its own type.
pub(crate) fn put(spot: &Spot, given: Whole, store: &mut Store)
    ensures { Leaves store.old store.new (spot_put (spot_tree spot.now) (in_kind given) (holdings_of store.old)) (spot_writes (spot_tree spot.now)) }
{
    match spot {
        Spot::Register(place) => put_register(store, *place, given),
        Spot::Local(slot) => put_slot(store, *slot, given),
        Spot::Element(shape, array, last, index) => {
            let at = wrapped(*last, evaluate(index, store).word.bits);
            let value = given.in_kind(shape.kind).as_shape(*shape);
            set_cell(store, *array, at, value.word.bits);
        }
        Spot::Output(shape, place) => {
            let value = given.in_kind(shape.kind).as_shape(*shape);
            put_out(store, *place, value.word.bits);
        }
    }
}

/// What a local holds first.
pub(crate) fn first_word(store: &Store, shape: Shape, first: &Option<Term>) -> Value
    ensures { typed_word result ≡ first_word (holdings_of store.now) shape (option_map term_tree first.now) }
{
    match first {
        None => Value::zero_of(shape),
        Some(term) => whole(term, store).in_kind(shape.kind).as_shape(shape),
    }
}

/// A loop's variable in a turn.
pub(crate) fn counter_value(shape: Option<Shape>, bits: u64) -> Value
    ensures { typed_word result ≡ counter_value shape bits }
{
    let value = Value::number(Kind::Unsigned, bits);
    match shape {
        None => value,
        Some(shape) => value.as_shape(shape),
    }
}
