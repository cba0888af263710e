// The tokens of an operation's sections.
#![tactic(auto, using(crate::proofs::SheetLaws::sheet_steps))]

ghost use Rattle.std.specs.Prelude.{◌≡◌, ◌∷◌, ◌++◌, [], OnOk, map};
ghost use Rattle.std.specs.List.{flat_map};
ghost use Rattle.lisa_tree.specs.declared.tokens.Sign.TheVariants as signs;
ghost use Rattle.lisa_tree.specs.declared.tokens.TokenPart.TheVariants as parts;
ghost use Rattle.lisa_tree.specs.Descriptions.{Group, declare_tree, coding_tree, section_tree};
ghost use Rattle.lisa_tree.specs.Grammar.{mark};
ghost use Rattle.lisa_tree.specs.DescriptionGrammar.{joint_tokens, syntax_part_tokens, syntax_tokens, format_sign};
ghost use Rattle.lisa_printer.specs.CanonicalTokens.{instance_tokens, instances_tokens, more_instances, declare_tokens, times_tokens, pattern_tokens, coding_item_tokens, coding_tokens, section_tokens};
ghost use Rattle.lisa_printer.specs.Sheets.{write_all, write};

use crate::activations::put_acts;
use crate::expressions::{put_bare, put_expr};
use crate::pages::Page;
use crate::resources::put_names;
use crate::statements::put_stmts;
use crate::tokens::{put_decimal, put_name, put_pattern, put_sign, put_text, put_word};
use lisa_tree::{
    CodingItem, CodingPart, Declare, Format, Keyword, Pattern, Section, Sign, SyntaxItem,
    SyntaxPart,
};
use lisa_words::{Name, NoMemory};
use std::alloc::Global;

pub fn put_sections(alloc: Global, page: &mut Page, all: &[Section]) -> Result<(), NoMemory>
    ensures { OnOk result (page.new ≡ write_all page.old (flat_map section_tokens (map section_tree all.now))) }
{
    for section in all {
        put_section(alloc, page, section)?;
    }
    Ok(())
}

fn put_section(alloc: Global, page: &mut Page, section: &Section) -> Result<(), NoMemory>
    ensures { OnOk result (page.new ≡ write_all page.old (section_tokens (section_tree section.now))) }
{
    match section {
        Section::Declare(declares) => {
            put_opening(page, Keyword::Declare)?;
            put_declares(page, declares)?;
        }
        Section::Coding(part) => {
            put_opening(page, Keyword::Coding)?;
            put_coding(alloc, page, part)?;
        }
        Section::Syntax(items) => {
            put_opening(page, Keyword::Syntax)?;
            put_syntax(page, items)?;
        }
        Section::Behavior(all) => {
            put_opening(page, Keyword::Behavior)?;
            put_stmts(alloc, page, all)?;
        }
        Section::Expression(e) => {
            put_opening(page, Keyword::Expression)?;
            put_expr(alloc, page, 0, e)?;
        }
        Section::Activation(acts) => {
            put_opening(page, Keyword::Activation)?;
            put_acts(alloc, page, acts)?;
        }
    }
    put_sign(page, Sign::CloseBrace)
}

/// `word {`
pub fn put_opening(page: &mut Page, word: Keyword) -> Result<(), NoMemory>
    ensures { OnOk result (page.new ≡ write_all page.old (parts.Reserved word ∷ mark signs.OpenBrace ∷ [])) }
{
    put_word(page, word)?;
    put_sign(page, Sign::OpenBrace)
}

fn put_declares(page: &mut Page, all: &[Declare]) -> Result<(), NoMemory>
    ensures { OnOk result (page.new ≡ write_all page.old (flat_map declare_tokens (map declare_tree all.now))) }
{
    for declare in all {
        put_declare(page, declare)?;
    }
    Ok(())
}

fn put_declare(page: &mut Page, declare: &Declare) -> Result<(), NoMemory>
    ensures { OnOk result (page.new ≡ write_all page.old (declare_tokens (declare_tree declare.now))) }
{
    match declare {
        Declare::Group(names, alternatives) => put_group(page, names, alternatives),
        Declare::Instance(names) => {
            put_word(page, Keyword::Instance)?;
            put_instances(page, names)?;
            put_sign(page, Sign::Semicolon)
        }
        Declare::Label(names) => {
            put_word(page, Keyword::Label)?;
            put_names(page, Sign::Comma, names)?;
            put_sign(page, Sign::Semicolon)
        }
        Declare::Reference(names) => {
            put_word(page, Keyword::Reference)?;
            put_names(page, Sign::Comma, names)?;
            put_sign(page, Sign::Semicolon)
        }
    }
}

fn put_group(page: &mut Page, names: &[Name], alternatives: &[Name]) -> Result<(), NoMemory>
    ensures { OnOk result (page.new ≡ write_all page.old (declare_tokens (Group names.now alternatives.now))) }
{
    put_word(page, Keyword::Group)?;
    put_names(page, Sign::Comma, names)?;
    put_sign(page, Sign::Equal)?;
    put_sign(page, Sign::OpenBrace)?;
    put_names(page, Sign::OrOr, alternatives)?;
    put_sign(page, Sign::CloseBrace)?;
    put_sign(page, Sign::Semicolon)
}

fn put_instances(page: &mut Page, all: &[(Name, Name)]) -> Result<(), NoMemory>
    ensures { OnOk result (page.new ≡ write_all page.old (instances_tokens all.now)) }
{
    let [first, rest @ ..] = all else {
        return Ok(());
    };
    put_instance(page, &first.0, &first.1)?;
    put_more_instances(page, rest)
}

// The instances behind the first, with a comma before each.
fn put_more_instances(page: &mut Page, rest: &[(Name, Name)]) -> Result<(), NoMemory>
    ensures { OnOk result (page.new ≡ write_all page.old (more_instances rest.now)) }
{
    for (name, operation) in rest {
        put_sign(page, Sign::Comma)?;
        put_instance(page, name, operation)?;
    }
    Ok(())
}

// `name` where both are equal, else `name = operation`
fn put_instance(page: &mut Page, name: &Name, operation: &Name) -> Result<(), NoMemory>
    ensures { OnOk result (page.new ≡ write_all page.old (instance_tokens (name.now, operation.now))) }
{
    put_name(page, name)?;
    if name == operation {
        return Ok(());
    }
    put_sign(page, Sign::Equal)?;
    put_name(page, operation)
}

fn put_coding(alloc: Global, page: &mut Page, part: &CodingPart) -> Result<(), NoMemory>
    ensures { OnOk result (page.new ≡ write_all page.old (coding_tokens (coding_tree part.now))) }
{
    match part {
        CodingPart::Root(place, group) => {
            put_bare(alloc, page, place)?;
            put_sign(page, Sign::EqualEqual)?;
            put_name(page, group)
        }
        CodingPart::Items(items) => put_coding_items(page, items),
    }
}

fn put_coding_items(page: &mut Page, all: &[CodingItem]) -> Result<(), NoMemory>
    ensures { OnOk result (page.new ≡ write_all page.old (flat_map coding_item_tokens all.now)) }
{
    for item in all {
        put_coding_item(page, item)?;
    }
    Ok(())
}

fn put_coding_item(page: &mut Page, item: &CodingItem) -> Result<(), NoMemory>
    ensures { OnOk result (page.new ≡ write_all page.old (coding_item_tokens item.now)) }
{
    match item {
        CodingItem::Bits(pattern) => put_bits(page, pattern),
        CodingItem::Field(name, pattern) => {
            put_name(page, name)?;
            put_sign(page, Sign::Equal)?;
            put_bits(page, pattern)
        }
        CodingItem::Child(name) => put_name(page, name),
    }
}

fn put_bits(page: &mut Page, pattern: &Pattern) -> Result<(), NoMemory>
    ensures { OnOk result (page.new ≡ write_all page.old (pattern_tokens pattern.now)) }
{
    put_pattern(page, pattern.digits.as_bytes())?;
    put_times(page, pattern.times)
}

// `[n]`, where there is one
fn put_times(page: &mut Page, times: Option<u32>) -> Result<(), NoMemory>
    ensures { OnOk result (page.new ≡ write_all page.old (times_tokens times)) }
{
    let Some(times) = times else {
        return Ok(());
    };
    put_sign(page, Sign::OpenSquare)?;
    put_decimal(page, times as u64)?;
    put_sign(page, Sign::CloseSquare)
}

fn put_syntax(page: &mut Page, all: &[SyntaxItem]) -> Result<(), NoMemory>
    ensures { OnOk result (page.new ≡ write_all page.old (syntax_tokens all.now)) }
{
    for item in all {
        put_syntax_item(page, item)?;
    }
    Ok(())
}

fn put_syntax_item(page: &mut Page, item: &SyntaxItem) -> Result<(), NoMemory>
    ensures { OnOk result (page.new ≡ write_all page.old (joint_tokens item.now.joined ++ syntax_part_tokens item.now.part)) }
{
    if item.joined {
        put_sign(page, Sign::Tilde)?;
    }
    put_syntax_part(page, &item.part)
}

fn put_syntax_part(page: &mut Page, part: &SyntaxPart) -> Result<(), NoMemory>
    ensures { OnOk result (page.new ≡ write_all page.old (syntax_part_tokens part.now)) }
{
    match part {
        SyntaxPart::Literal(text) => put_text(page, text),
        SyntaxPart::Number(label, format) => {
            put_name(page, label)?;
            put_sign(page, Sign::Equal)?;
            put_sign(page, format_sign(*format))
        }
        SyntaxPart::Child(name) => put_name(page, name),
    }
}

fn format_sign(format: Format) -> Sign
    ensures { result ≡ format_sign format }
{
    match format {
        Format::Decimal => Sign::DecimalFormat,
        Format::SignedDecimal => Sign::SignedFormat,
        Format::Hexadecimal => Sign::HexadecimalFormat,
    }
}
