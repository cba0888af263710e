//! The canonical text of a description: one line for each statement and each opening and closing brace, two blanks for
//! each brace that is open, one blank between tokens, and parentheses only where they are needed.
#![tactic(auto, using(crate::proofs::SheetLaws::sheet_steps))]

ghost use Rattle.std.specs.Prelude.{◌≡◌, ◌↔◌, ℕ, List, IfOk, OnOk};
ghost use Rattle.lisa_tree.specs.Descriptions.{description_tree};
ghost use Rattle.lisa_printer.specs.CanonicalTokens.{description_tokens};
ghost use Rattle.lisa_tree.specs.Brackets.{IsFlat};
ghost use Rattle.lisa_tree.specs.Texts.{SpellsText};
ghost use Rattle.lisa_printer.specs.CanonicalText.{canonical_text};
ghost use Rattle.lisa_printer.specs.Sheets.{write_all};

mod activations;
mod expressions;
mod laws;
mod operations;
mod pages;
mod resources;
mod sections;
mod statements;
mod tokens;

pub use laws::even_semantics_keep_brackets_few;
use lisa_tree::{Description, Keyword, Sign};
use lisa_words::NoMemory;
use operations::put_operations;
use pages::Page;
use resources::put_resources;
use sections::put_opening;
use std::alloc::Global;
use tokens::put_sign;

/// The canonical text of a description. It fails for want of memory alone.
///
/// Where any bytes spell the description, the text spells it too, so that reading what is printed gives the same tree,
/// exactly where at most 64 brackets are open in it. More are where a SEMANTICS section of those bytes, which the text
/// leaves out, closes brackets that others opened: what stands behind it may then be nested deeper than the count of
/// open brackets tells.
pub fn print_description(alloc: Global, d: &Description) -> Result<Vec<u8>, NoMemory>
    ensures exact { IfOk result (λ text. text.items ≡ canonical_text (description_tokens (description_tree d.now))) }
    ensures spelled { (bytes : List ℕ) → SpellsText bytes (description_tree d.now)
        → IfOk result (λ text. SpellsText text.items (description_tree d.now) ↔ IsFlat (description_tokens (description_tree d.now))) }
{
    let mut page = Page::new(alloc);
    put_description(alloc, &mut page, d)?;
    page.finish()
}

fn put_description(alloc: Global, page: &mut Page, d: &Description) -> Result<(), NoMemory>
    ensures { OnOk result (page.new ≡ write_all page.old (description_tokens (description_tree d.now))) }
{
    put_opening(page, Keyword::Resource)?;
    put_resources(page, &d.resources)?;
    put_sign(page, Sign::CloseBrace)?;
    put_operations(alloc, page, &d.operations)
}
