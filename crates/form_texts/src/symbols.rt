//! What a form writes, symbol by symbol.

ghost use Rattle.std.specs.Prelude.{◌≡◌};
ghost use Rattle.form_texts.specs.Strings.{field_number, strings_number};

use lisa_tree::Format;

/// A byte of a text, a place where runs part, the number of a field, or strings that are kept.
#[derive(Clone, Copy)]
pub(crate) enum Symbol {
    Byte(u8),
    Gap,
    /// How it is written, its width in bits, and the field's place in preorder.
    Number {
        format: Format,
        width: u32,
        field: u32,
    },
    /// The strings of this number.
    Strings(usize),
}

/// The number of the strings that it is, where it is some.
pub(crate) fn strings_number(symbol: Symbol) -> Option<usize>
    ensures { result ≡ strings_number symbol }
{
    match symbol {
        Symbol::Strings(number) => Some(number),
        _ => None,
    }
}

/// The field whose number it is, where it is one.
pub(crate) fn field_number(symbol: Symbol) -> Option<u32>
    ensures { result ≡ field_number symbol }
{
    match symbol {
        Symbol::Number { field, .. } => Some(field),
        _ => None,
    }
}
