//! Strings that many forms write, which are kept once where they are long.

ghost use Rattle.std.specs.Prelude.{◌≡◌, ◌≤◌, ◌<◌, ◌++◌, ◌∷◌, ℕ, List, [], option_map, IfOk, OnOk, false, length, map, slice_index_or, take, true};
ghost use Rattle.std.specs.List.{list_all};
ghost use Rattle.asm_source.specs.Bytes.{is_word};
ghost use Rattle.instruction_texts.specs.Symbols.{Sym, text_sym, gather};
ghost use Rattle.form_texts.specs.Strings.{strings_at, symbols_of, AreOpened};
ghost use Rattle.form_texts.specs.declared.strings.Strings.{Strings as AnyStrings};

use crate::conditions::dotted;
use crate::gathering::{Pieces, add_symbol, is_word};
use crate::symbols::Symbol;
use instruction_texts::Shape;
use lisa_words::NoMemory;
use std::alloc::Global;

/// Strings that are kept.
#[derive(Drop)]
pub(crate) struct Strings {
    /// Their bytes, with a blank for each gap.
    pub text: Vec<u8>,
    /// How many word characters stand at the front, and go on with a run before them. A gap or another character is behind them.
    pub head: usize,
    /// The run at the end, which may go on.
    pub run: Vec<u8>,
    /// Whether the first run between the two begins with `.`; none, where there is no run.
    pub dotted: Option<bool>,
}

/// Strings that are kept, and the pieces between the front and the end of each.
#[derive(Drop)]
pub(crate) struct StringTable {
    pub strings: Vec<Strings>,
    pub shared: Vec<Vec<Shape>>,
}

/// The strings of this number, if there are so many.
#[tactic(auto, using(crate::proofs::Tabled::kept_at, crate::proofs::Tabled::kept_past))]
pub(crate) fn kept(strings: &[Strings], number: usize) -> Option<&Strings>
    ensures { option_map (λ s. s.now) result ≡ strings_at strings.now number }
{
    if number < strings.len() {
        Some(&strings[number])
    } else {
        None
    }
}

/// A blank in a string only separates.
pub(crate) fn text_symbol(byte: u8) -> Symbol
    ensures { (strings : List AnyStrings) → symbols_of strings result ≡ text_sym byte ∷ [] }
{
    if byte == b' ' {
        Symbol::Gap
    } else {
        Symbol::Byte(byte)
    }
}

/// How many word characters stand at the front.
pub(crate) fn word_front(text: &[u8]) -> usize
    ensures within { result ≤ length text.now }
    ensures words { list_all is_word (take result text.now) ≡ true }
    ensures behind { result < length text.now → is_word (slice_index_or text.now result 0) ≡ false }
{
    for place in 0..text.len() {
        if !is_word(text[place]) {
            return place;
        }
    }
    text.len()
}

// The pieces of strings.
fn string_pieces(alloc: Global, text: &[u8]) -> Result<Pieces, NoMemory>
    ensures { IfOk result (λ pieces. (rest : List (Sym ℕ)) → pieces.shapes.items ++ gather pieces.run.items rest ≡ gather [] (map text_sym text.now ++ rest)) }
{
    let mut pieces = Pieces {
        shapes: Vec::new(alloc),
        run: Vec::new(alloc),
    };
    for &byte in text {
        add_symbol(alloc, &mut pieces, text_symbol(byte))?;
    }
    Ok(pieces)
}

/// Keeps a text that is more than its front.
pub(crate) fn keep(
    alloc: Global,
    table: &mut StringTable,
    text: Vec<u8>,
    head: usize,
) -> Result<(), NoMemory>
    requires within { head < length text.items }
    requires words { list_all is_word (take head text.items) ≡ true }
    requires behind { is_word (slice_index_or text.items head 0) ≡ false }
    requires opened { AreOpened table.old }
    ensures opened { OnOk result (AreOpened table.new) }
    ensures kept { OnOk result ((s : AnyStrings) × (table.new.strings.items ≡ table.old.strings.items ++ s ∷ []) × (s.text.items ≡ text.items)) }
{
    let Pieces { shapes, run } = string_pieces(alloc, &text[head..])?;
    let dotted = dotted(&shapes);
    table.strings.push(Strings {
        text,
        head,
        run,
        dotted,
    })?;
    table.shared.push(shapes)?;
    Ok(())
}
