// The tokens of an activation's items.
#![tactic(auto, using(crate::proofs::SheetLaws::sheet_steps))]

ghost use Rattle.std.specs.Prelude.{◌≡◌, ◌∷◌, ◌++◌, [], OnOk};
ghost use Rattle.lisa_tree.specs.declared.tokens.Sign.TheVariants as signs;
ghost use Rattle.lisa_tree.specs.Grammar.{mark};
ghost use Rattle.lisa_tree.specs.Activations.{act_tree, act_trees};
ghost use Rattle.lisa_printer.specs.CanonicalTokens.{act_tokens, acts_tokens, comma_unless};
ghost use Rattle.lisa_printer.specs.Sheets.{write_all};

use crate::pages::Page;
use crate::statements::put_test;
use crate::tokens::{put_name, put_sign, put_word};
use lisa_tree::{Act, Keyword, Sign};
use lisa_words::NoMemory;
use std::alloc::Global;

/// Items with a comma between each two.
#[cycle(acts)]
pub fn put_acts(alloc: Global, page: &mut Page, all: &[Act]) -> Result<(), NoMemory>
    ensures { OnOk result (page.new ≡ write_all page.old (acts_tokens (act_trees all.now))) }
{
    let mut first = true;
    for a in all {
        put_comma(page, first)?;
        put_act(alloc, page, a)?;
        first = false;
    }
    Ok(())
}

// A comma, but before the first item.
fn put_comma(page: &mut Page, first: bool) -> Result<(), NoMemory>
    ensures { OnOk result (page.new ≡ write_all page.old (comma_unless first)) }
{
    if first {
        Ok(())
    } else {
        put_sign(page, Sign::Comma)
    }
}

#[cycle(acts)]
fn put_act(alloc: Global, page: &mut Page, a: &Act) -> Result<(), NoMemory>
    ensures { OnOk result (page.new ≡ write_all page.old (act_tokens (act_tree a.now))) }
{
    match a {
        Act::Start(name) => put_name(page, name),
        Act::Choose(test, chosen, other) => {
            put_test(alloc, page, Keyword::If, test)?;
            put_braced_acts(alloc, page, chosen)?;
            match other {
                None => Ok(()),
                Some(other) => {
                    put_word(page, Keyword::Else)?;
                    put_braced_acts(alloc, page, other)
                }
            }
        }
    }
}

#[cycle(acts)]
fn put_braced_acts(alloc: Global, page: &mut Page, all: &[Act]) -> Result<(), NoMemory>
    ensures { OnOk result (page.new ≡ write_all page.old (mark signs.OpenBrace ∷ (acts_tokens (act_trees all.now) ++ mark signs.CloseBrace ∷ []))) }
{
    put_sign(page, Sign::OpenBrace)?;
    put_acts(alloc, page, all)?;
    put_sign(page, Sign::CloseBrace)
}
