// The values of sums.
ghost use Rattle.std.specs.Prelude.{◌≡◌, option_copied, true};
ghost use Rattle.asm_source.specs.Numbers.{IsShort};
ghost use Rattle.asm_source.specs.Plain.{sum_tree};
ghost use Rattle.lisa_object.specs.ObjectRules.{is_sum};
ghost use Rattle.placed_programs.specs.Symbols.{named_value, term_value, sum_value};
ghost use Rattle.lisa_linker.specs.Tables.{HasShort, symbols_of};

use asm_source::{Sum, Term};
use lisa_words::Name;
use std::collections::BTreeMap;

/// The values of names: those of an object's own, and those of the others.
#[derive(Clone, Copy)]
pub(crate) struct Values<'a> {
    pub(crate) own: &'a BTreeMap<Name, i128>,
    pub(crate) others: &'a BTreeMap<Name, i128>,
}

// The value of a name, or of the cell's own address.
fn named_value(values: Values<'_>, address: u64, name: Option<&Name>) -> i128
    requires short { HasShort values }
    ensures value { result ≡ named_value (symbols_of values.entry) address (option_copied name.entry) }
    ensures short { IsShort 1 result }
{
    let Some(name) = name else {
        return i128::from(address);
    };
    match values.own.get(name) {
        Some(value) => *value,
        None => match values.others.get(name) {
            Some(value) => *value,
            None => 0,
        },
    }
}

fn term_value(values: Values<'_>, address: u64, term: &Term) -> i128
    requires short { HasShort values }
    ensures value { result ≡ term_value (symbols_of values.entry) address term.now }
    ensures short { IsShort 1 result }
{
    let value = named_value(values, address, term.name.as_ref());
    if term.minus { -value } else { value }
}

/// The value of a sum in a cell with this address.
pub(crate) fn sum_value(values: Values<'_>, address: u64, sum: &Sum) -> i128
    requires short { HasShort values }
    requires sum { is_sum (sum_tree sum.now) ≡ true }
    ensures value { result ≡ sum_value (symbols_of values.entry) address (sum_tree sum.now) }
    ensures short { IsShort 16 result }
{
    let mut total = sum.constant;
    'each: for term in &sum.terms {
        total += term_value(values, address, term);
    }
    total
}
