//! The values of expressions.

ghost use Rattle.std.specs.Prelude.{◌≡◌, map, slice_index};
ghost use Rattle.typed_values.specs.Words.{typed_word};
ghost use Rattle.typed_values.specs.Effects.{in_kind};
ghost use Rattle.behavior_plans.specs.Terms.{term_tree};
ghost use Rattle.behavior_plans.specs.Holdings.{word_at};
ghost use Rattle.behavior_plans.specs.Values.{literal, shaped_word, element_word, wrapped, term_value, term_whole};
ghost use Rattle.behavior_plans.specs.Stores.{holdings_of, cells_of};

use crate::operands::{Operand, chosen_of, complement, made_of};
use crate::store::Store;
use crate::terms::Term;
use lisa_tree::Shape;
use lisa_words::{Kind, Word};
use typed_values::{Value, Whole};

/// A word by its place; where there is none it is 0.
pub(crate) fn word_at(words: &[Value], place: u32) -> Value
    ensures { typed_word result ≡ word_at (map typed_word words.now) place }
{
    match words.get(place as usize) {
        Some(value) => *value,
        None => Value::truth(false),
    }
}

// The bits of a cell; where there is none they are 0.
fn cell_at(cells: &[u64], index: u32) -> u64
    ensures { result ≡ slice_index cells.now index }
{
    match cells.get(index as usize) {
        Some(bits) => *bits,
        None => 0,
    }
}

// Bits in a type.
fn shaped(shape: Shape, bits: u64) -> Value
    ensures { typed_word result ≡ shaped_word shape bits }
{
    let value = Value {
        kind: Kind::Unsigned,
        word: Word { bits, width: 64 },
    };
    value.as_shape(shape)
}

fn element_at(store: &Store, shape: Shape, array: u32, index: u32) -> Value
    ensures { typed_word result ≡ element_word (cells_of store.now) shape array index }
{
    let bits = match store.cells.get(array as usize) {
        Some(row) => cell_at(row, index),
        None => 0,
    };
    shaped(shape, bits)
}

/// An index from 0 to the last one.
pub(crate) fn wrapped(last: u32, index: u64) -> u32
    ensures { result ≡ wrapped last index }
{
    (index & u64::from(last)) as u32
}

// The number that a literal is.
fn literal(term: &Term) -> Option<u64>
    ensures { result ≡ literal (term_tree term.now) }
{
    match term {
        Term::Number(value) => Some(*value),
        _ => None,
    }
}

/// The value of an expression.
#[cycle(values)]
pub fn evaluate(term: &Term, store: &Store) -> Value
    ensures { typed_word result ≡ term_value (holdings_of store.now) (term_tree term.now) }
{
    match term {
        Term::Number(value) => Value::number(Kind::Unsigned, *value),
        Term::Register(place) => word_at(&store.registers, *place),
        Term::Kept(place) => word_at(&store.kept, *place),
        Term::Pin(place) => word_at(&store.pins, *place),
        Term::Decoded => Value::truth(store.decoded),
        Term::Local(slot) => word_at(&store.slots, *slot),
        Term::Element(shape, array, last, index) => {
            let at = wrapped(*last, evaluate(index, store).word.bits);
            element_at(store, *shape, *array, at)
        }
        Term::Input(shape, place) => shaped(*shape, cell_at(&store.fields, *place)),
        Term::Cast(shape, value) => evaluate(value, store).as_shape(*shape),
        Term::Complement(value) => complement(evaluate(value, store)),
        Term::Negate(value) => Value::truth(evaluate(value, store).is_zero()),
        Term::Two(operator, left, right) => {
            made_of(*operator, operand(left, store), operand(right, store))
        }
        Term::Choose(test, left, right) => {
            let is_chosen = !evaluate(test, store).is_zero();
            chosen_of(is_chosen, operand(left, store), operand(right, store))
        }
    }
}

#[cycle(values)]
fn operand(term: &Term, store: &Store) -> Operand
    ensures literal { result.literal ≡ literal (term_tree term.now) }
    ensures value { typed_word result.value ≡ term_value (holdings_of store.now) (term_tree term.now) }
{
    Operand {
        literal: literal(term),
        value: evaluate(term, store),
    }
}

/// All that an expression assigns.
pub(crate) fn whole(term: &Term, store: &Store) -> Whole
    ensures { in_kind result ≡ term_whole (holdings_of store.now) (term_tree term.now) }
{
    Whole {
        literal: literal(term),
        value: evaluate(term, store),
    }
}
