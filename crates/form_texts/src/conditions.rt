//! What a form's text may be.

ghost use Rattle.std.specs.Prelude.{◌≡◌, ◌++◌, ◌&&◌, ℕ, List, None, Some, IfOk, cond, map, nat_eq, not};
ghost use Rattle.std.specs.List.{flat_map};
ghost use Rattle.instruction_texts.specs.Symbols.{Sym, text_sym, parts_from, is_clean, starts_dot, is_dotted, has_pieces, is_instruction_text};
ghost use Rattle.text_tables.specs.Parts.{part_pieces, text_pieces};
ghost use Rattle.form_texts.specs.Pieces.{dotted};
ghost use Rattle.form_texts.specs.Strings.{strings_at, symbols_of, clean_behind, clean_after, AreOpened};
ghost use Rattle.form_texts.specs.declared.strings.Strings.{Strings as AnyStrings};

use crate::gathering::{is_word, parts};
use crate::strings::{StringTable, Strings, kept};
use crate::symbols::Symbol;
use instruction_texts::Shape;
use lisa_words::NoMemory;
use std::alloc::Global;
use text_tables::{Part, pieces};

// Whether what follows stands behind a number, where something that parts runs or not may stand here.
fn may_stand(behind_number: bool, parts: bool, number: bool) -> Option<bool>
    ensures { result ≡ cond (behind_number && not parts) None (Some number) }
{
    if behind_number && !parts {
        None
    } else {
        Some(number)
    }
}

// Whether what follows the symbol stands behind a number, where the symbol may stand, else none.
fn behind(strings: &[Strings], behind_number: bool, symbol: Symbol) -> Option<bool>
    requires parts { (k : ℕ) (s : AnyStrings) → strings_at strings.now k ≡ Some s → (rest : List (Sym ℕ)) → parts_from (map text_sym s.text.items ++ rest) ≡ nat_eq s.head 0 }
    ensures { (rest : List (Sym ℕ)) → clean_behind behind_number (symbols_of strings.now symbol ++ rest) ≡ clean_after result rest }
{
    match symbol {
        Symbol::Gap => Some(false),
        Symbol::Byte(byte) => may_stand(behind_number, !is_word(byte), false),
        Symbol::Number { .. } => may_stand(behind_number, false, true),
        Symbol::Strings(number) => match kept(strings, number) {
            Some(strings) => may_stand(behind_number, strings.head == 0, false),
            None => Some(behind_number),
        },
    }
}

// Whether each number is the last thing in its run.
fn is_clean(strings: &[Strings], symbols: &[Symbol]) -> bool
    requires parts { (k : ℕ) (s : AnyStrings) → strings_at strings.now k ≡ Some s → (rest : List (Sym ℕ)) → parts_from (map text_sym s.text.items ++ rest) ≡ nat_eq s.head 0 }
    ensures { result ≡ is_clean (flat_map (symbols_of strings.now) symbols.now) }
{
    let mut behind_number = false;
    for &symbol in symbols {
        match behind(strings, behind_number, symbol) {
            None => return false,
            Some(next) => behind_number = next,
        }
    }
    true
}

fn starts_dot(run: &[u8]) -> bool
    ensures { result ≡ starts_dot run.now }
{
    matches!(run, [b'.', ..])
}

/// Whether the first run begins with `.`, as a directive does; none, where there is no run.
pub(crate) fn dotted(shapes: &[Shape]) -> Option<bool>
    ensures { result ≡ dotted shapes.now }
{
    for shape in shapes {
        match shape {
            Shape::Other(_) => {}
            Shape::Literal(run) => return Some(starts_dot(run.as_bytes())),
            Shape::Unsigned { prefix, .. } => return Some(starts_dot(prefix.as_bytes())),
            Shape::Signed { prefix, .. } => return Some(starts_dot(prefix.as_bytes())),
        }
    }
    None
}

// The same of a part. Of strings it was found out when they were kept.
#[tactic(auto, using(crate::proofs::Tabled::kept_dotted, crate::proofs::Tabled::none_dotted))]
fn part_dotted(table: &StringTable, part: &Part) -> Option<bool>
    requires opened { AreOpened table.now }
    ensures { result ≡ dotted (part_pieces table.now.shared.items part.now) }
{
    match part {
        Part::Own(own) => dotted(own),
        Part::Shared(number) => match kept(&table.strings, *number) {
            Some(strings) => strings.dotted,
            None => None,
        },
    }
}

// Whether the first run of a text begins so.
fn is_dotted(table: &StringTable, parts: &[Part]) -> bool
    requires opened { AreOpened table.now }
    ensures { result ≡ is_dotted (text_pieces table.now.shared.items parts.now) }
{
    for part in parts {
        if let Some(found) = part_dotted(table, part) {
            return found;
        }
    }
    false
}

fn has_pieces(shared: &[Vec<Shape>], parts: &[Part]) -> bool
    ensures { result ≡ has_pieces (text_pieces shared.now parts.now) }
{
    for part in parts {
        if pieces(shared, part).len() > 0 {
            return true;
        }
    }
    false
}

/// Whether these symbols may be the text of an instruction.
pub(crate) fn is_instruction_text(
    alloc: Global,
    table: &StringTable,
    symbols: &[Symbol],
) -> Result<bool, NoMemory>
    requires opened { AreOpened table.now }
    ensures { IfOk result (λ good. good ≡ is_instruction_text (flat_map (symbols_of table.now.strings.items) symbols.now)) }
{
    let parts = parts(alloc, table, symbols)?;
    Ok(
        is_clean(&table.strings, symbols)
            && has_pieces(&table.shared, &parts)
            && !is_dotted(table, &parts),
    )
}
