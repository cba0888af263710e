// The tokens of resources.
#![tactic(auto, using(crate::proofs::SheetLaws::sheet_steps))]

ghost use Rattle.std.specs.Prelude.{◌≡◌, ◌∷◌, ◌++◌, [], OnOk, map};
ghost use Rattle.std.specs.List.{flat_map};
ghost use Rattle.lisa_tree.specs.declared.tokens.Sign.{Sign};
ghost use Rattle.lisa_tree.specs.declared.tokens.TokenPart.TheVariants as parts;
ghost use Rattle.lisa_tree.specs.Descriptions.{Pipeline, Fields, resource_tree};
ghost use Rattle.lisa_tree.specs.Grammar.{mark};
ghost use Rattle.lisa_tree.specs.DescriptionGrammar.{names_by, field_tokens, register_word, memory_word};
ghost use Rattle.lisa_printer.specs.CanonicalTokens.{more_names, depth_tokens, resource_tokens};
ghost use Rattle.lisa_printer.specs.Sheets.{write_all, write};

use crate::pages::Page;
use crate::tokens::{put_decimal, put_name, put_shape, put_sign, put_word};
use lisa_tree::{Keyword, MemoryWord, RegisterWord, Resource, Shape, Sign};
use lisa_words::{Name, NoMemory};

pub fn put_resources(page: &mut Page, all: &[Resource]) -> Result<(), NoMemory>
    ensures { OnOk result (page.new ≡ write_all page.old (flat_map resource_tokens (map resource_tree all.now))) }
{
    for resource in all {
        put_resource(page, resource)?;
    }
    Ok(())
}

fn put_resource(page: &mut Page, resource: &Resource) -> Result<(), NoMemory>
    ensures { OnOk result (page.new ≡ write_all page.old (resource_tokens (resource_tree resource.now))) }
{
    match resource {
        Resource::Register(word, shape, name, None) => {
            put_register_word(page, *word)?;
            put_item(page, *shape, name)?;
            put_sign(page, Sign::Semicolon)
        }
        Resource::Register(word, shape, name, Some(depth)) => {
            put_register_word(page, *word)?;
            put_item(page, *shape, name)?;
            put_depth(page, *depth)
        }
        Resource::Clocked(word, shape, name) => {
            put_word(page, Keyword::Clocked)?;
            put_register_word(page, *word)?;
            put_item(page, *shape, name)?;
            put_sign(page, Sign::Semicolon)
        }
        Resource::Memory(word, shape, name, depth) => {
            put_memory_word(page, *word)?;
            put_item(page, *shape, name)?;
            put_depth(page, *depth)
        }
        Resource::Pin(shape, name) => {
            put_word(page, Keyword::Pin)?;
            put_item(page, *shape, name)?;
            put_sign(page, Sign::Semicolon)
        }
        Resource::Pipeline(name, stages) => put_pipeline(page, name, stages),
        Resource::Fields(pipe, fields) => put_fields(page, pipe, fields),
    }
}

fn put_register_word(page: &mut Page, word: RegisterWord) -> Result<(), NoMemory>
    ensures { OnOk result (page.new ≡ write page.old (register_word word)) }
{
    match word {
        RegisterWord::Register => put_word(page, Keyword::Register),
        RegisterWord::ProgramCounter => put_word(page, Keyword::ProgramCounter),
        RegisterWord::ControlRegister => put_word(page, Keyword::ControlRegister),
    }
}

fn put_memory_word(page: &mut Page, word: MemoryWord) -> Result<(), NoMemory>
    ensures { OnOk result (page.new ≡ write page.old (memory_word word)) }
{
    match word {
        MemoryWord::Memory => put_word(page, Keyword::Memory),
        MemoryWord::DataMemory => put_word(page, Keyword::DataMemory),
        MemoryWord::ProgramMemory => put_word(page, Keyword::ProgramMemory),
    }
}

// `type name`
fn put_item(page: &mut Page, shape: Shape, name: &Name) -> Result<(), NoMemory>
    ensures { OnOk result (page.new ≡ write_all page.old (parts.TypeWord shape ∷ parts.Named name.now ∷ [])) }
{
    put_shape(page, shape)?;
    put_name(page, name)
}

// `[depth];`
fn put_depth(page: &mut Page, depth: u64) -> Result<(), NoMemory>
    ensures { OnOk result (page.new ≡ write_all page.old (depth_tokens depth)) }
{
    put_sign(page, Sign::OpenSquare)?;
    put_decimal(page, depth)?;
    put_sign(page, Sign::CloseSquare)?;
    put_sign(page, Sign::Semicolon)
}

fn put_pipeline(page: &mut Page, name: &Name, stages: &[Name]) -> Result<(), NoMemory>
    ensures { OnOk result (page.new ≡ write_all page.old (resource_tokens (Pipeline name.now stages.now))) }
{
    put_word(page, Keyword::Pipeline)?;
    put_name(page, name)?;
    put_sign(page, Sign::Equal)?;
    put_sign(page, Sign::OpenBrace)?;
    put_names(page, Sign::Semicolon, stages)?;
    put_sign(page, Sign::CloseBrace)?;
    put_sign(page, Sign::Semicolon)
}

/// Names with a sign between each two.
pub fn put_names(page: &mut Page, sign: Sign, names: &[Name]) -> Result<(), NoMemory>
    ensures { OnOk result (page.new ≡ write_all page.old (names_by sign names.now)) }
{
    let [first, rest @ ..] = names else {
        return Ok(());
    };
    put_name(page, first)?;
    put_more_names(page, sign, rest)
}

// The names behind the first, with a sign before each.
fn put_more_names(page: &mut Page, sign: Sign, rest: &[Name]) -> Result<(), NoMemory>
    ensures { OnOk result (page.new ≡ write_all page.old (more_names sign rest.now)) }
{
    for name in rest {
        put_sign(page, sign)?;
        put_name(page, name)?;
    }
    Ok(())
}

fn put_fields(page: &mut Page, pipe: &Name, fields: &[(Shape, Name)]) -> Result<(), NoMemory>
    ensures { OnOk result (page.new ≡ write_all page.old (resource_tokens (Fields pipe.now fields.now))) }
{
    put_word(page, Keyword::PipelineRegister)?;
    put_word(page, Keyword::In)?;
    put_name(page, pipe)?;
    put_sign(page, Sign::OpenBrace)?;
    put_field_list(page, fields)?;
    put_sign(page, Sign::CloseBrace)?;
    put_sign(page, Sign::Semicolon)
}

// `type name;` for each field
fn put_field_list(page: &mut Page, fields: &[(Shape, Name)]) -> Result<(), NoMemory>
    ensures { OnOk result (page.new ≡ write_all page.old (field_tokens fields.now)) }
{
    for (shape, name) in fields {
        put_item(page, *shape, name)?;
        put_sign(page, Sign::Semicolon)?;
    }
    Ok(())
}
