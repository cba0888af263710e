// The tokens of operations.
#![tactic(auto, using(crate::proofs::SheetLaws::sheet_steps))]

ghost use Rattle.std.specs.Prelude.{◌≡◌, OnOk, map};
ghost use Rattle.std.specs.List.{flat_map};
ghost use Rattle.lisa_tree.specs.Descriptions.{operation_tree};
ghost use Rattle.lisa_tree.specs.DescriptionGrammar.{alias_tokens, stage_tokens};
ghost use Rattle.lisa_printer.specs.CanonicalTokens.{operation_tokens};
ghost use Rattle.lisa_printer.specs.Sheets.{write_all};

use crate::pages::Page;
use crate::sections::put_sections;
use crate::tokens::{put_name, put_sign, put_word};
use lisa_tree::{Keyword, Operation, Sign};
use lisa_words::{Name, NoMemory};
use std::alloc::Global;

pub fn put_operations(alloc: Global, page: &mut Page, all: &[Operation]) -> Result<(), NoMemory>
    ensures { OnOk result (page.new ≡ write_all page.old (flat_map operation_tokens (map operation_tree all.now))) }
{
    for operation in all {
        put_operation(alloc, page, operation)?;
    }
    Ok(())
}

fn put_operation(alloc: Global, page: &mut Page, o: &Operation) -> Result<(), NoMemory>
    ensures { OnOk result (page.new ≡ write_all page.old (operation_tokens (operation_tree o.now))) }
{
    put_alias(page, o.alias)?;
    put_word(page, Keyword::Operation)?;
    put_name(page, &o.name)?;
    put_stage(page, &o.stage)?;
    put_sign(page, Sign::OpenBrace)?;
    put_sections(alloc, page, &o.sections)?;
    put_sign(page, Sign::CloseBrace)
}

fn put_alias(page: &mut Page, alias: bool) -> Result<(), NoMemory>
    ensures { OnOk result (page.new ≡ write_all page.old (alias_tokens alias)) }
{
    if alias {
        put_word(page, Keyword::Alias)
    } else {
        Ok(())
    }
}

// `IN pipe.stage`, where there is one
fn put_stage(page: &mut Page, stage: &Option<(Name, Name)>) -> Result<(), NoMemory>
    ensures { OnOk result (page.new ≡ write_all page.old (stage_tokens stage.now)) }
{
    let Some((pipe, stage)) = stage else {
        return Ok(());
    };
    put_word(page, Keyword::In)?;
    put_name(page, pipe)?;
    put_sign(page, Sign::Dot)?;
    put_name(page, stage)
}
