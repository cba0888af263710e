// The tokens of a description, each put on a page.
#![tactic(auto, using(crate::proofs::SheetLaws::sheet_steps))]

ghost use Rattle.std.specs.Prelude.{◌≡◌, false, OnOk};
ghost use Rattle.std.specs.Fmt.{digits};
ghost use Rattle.lisa_tree.specs.declared.tokens.Base.TheVariants.{Decimal, Hexadecimal};
ghost use Rattle.lisa_tree.specs.declared.tokens.TokenPart.TheVariants as parts;
ghost use Rattle.lisa_tree.specs.Spellings.{sign_text, keyword_text, kind_text};
ghost use Rattle.lisa_printer.specs.Sheets.{write};

use crate::pages::Page;
use lisa_tree::{Keyword, Shape, Sign};
use lisa_words::{Kind, Name, NoMemory, decimal, hex};
use std::alloc::Global;

// The bytes of a sign.
fn sign_text(sign: Sign) -> &'static [u8]
    ensures { result.now ≡ sign_text sign }
{
    match sign {
        Sign::ShiftLeft => b"<<",
        Sign::ShiftRight => b">>",
        Sign::LessEqual => b"<=",
        Sign::GreaterEqual => b">=",
        Sign::EqualEqual => b"==",
        Sign::NotEqual => b"!=",
        Sign::AndAnd => b"&&",
        Sign::OrOr => b"||",
        Sign::DecimalFormat => b"#U",
        Sign::SignedFormat => b"#S",
        Sign::HexadecimalFormat => b"#X",
        Sign::OpenBrace => b"{",
        Sign::CloseBrace => b"}",
        Sign::OpenRound => b"(",
        Sign::CloseRound => b")",
        Sign::OpenSquare => b"[",
        Sign::CloseSquare => b"]",
        Sign::Semicolon => b";",
        Sign::Comma => b",",
        Sign::Dot => b".",
        Sign::Equal => b"=",
        Sign::Less => b"<",
        Sign::Greater => b">",
        Sign::Plus => b"+",
        Sign::Minus => b"-",
        Sign::Star => b"*",
        Sign::And => b"&",
        Sign::Or => b"|",
        Sign::Caret => b"^",
        Sign::Tilde => b"~",
        Sign::Exclamation => b"!",
        Sign::Question => b"?",
        Sign::Colon => b":",
        Sign::Slash => b"/",
    }
}

// The bytes of a reserved word.
fn keyword_text(keyword: Keyword) -> &'static [u8]
    ensures { result.now ≡ keyword_text keyword }
{
    match keyword {
        Keyword::Resource => b"RESOURCE",
        Keyword::Register => b"REGISTER",
        Keyword::ProgramCounter => b"PROGRAM_COUNTER",
        Keyword::ControlRegister => b"CONTROL_REGISTER",
        Keyword::Clocked => b"CLOCKED",
        Keyword::Memory => b"MEMORY",
        Keyword::DataMemory => b"DATA_MEMORY",
        Keyword::ProgramMemory => b"PROGRAM_MEMORY",
        Keyword::Pin => b"PIN",
        Keyword::Pipeline => b"PIPELINE",
        Keyword::PipelineRegister => b"PIPELINE_REGISTER",
        Keyword::In => b"IN",
        Keyword::Out => b"OUT",
        Keyword::Operation => b"OPERATION",
        Keyword::Alias => b"ALIAS",
        Keyword::Declare => b"DECLARE",
        Keyword::Group => b"GROUP",
        Keyword::Instance => b"INSTANCE",
        Keyword::Label => b"LABEL",
        Keyword::Reference => b"REFERENCE",
        Keyword::Coding => b"CODING",
        Keyword::Syntax => b"SYNTAX",
        Keyword::Behavior => b"BEHAVIOR",
        Keyword::Expression => b"EXPRESSION",
        Keyword::Activation => b"ACTIVATION",
        Keyword::Semantics => b"SEMANTICS",
        Keyword::If => b"if",
        Keyword::Else => b"else",
        Keyword::While => b"while",
        Keyword::For => b"for",
        Keyword::Decoded => b"decoded",
    }
}

// The letters of a type word.
fn kind_text(kind: Kind) -> &'static [u8]
    ensures { result.now ≡ kind_text kind }
{
    match kind {
        Kind::Unsigned => b"uint",
        Kind::Signed => b"int",
    }
}

pub fn put_sign(page: &mut Page, sign: Sign) -> Result<(), NoMemory>
    ensures { OnOk result (page.new ≡ write page.old (parts.Sign sign)) }
{
    page.put_token(Some(sign), sign_text(sign))
}

pub fn put_word(page: &mut Page, keyword: Keyword) -> Result<(), NoMemory>
    ensures { OnOk result (page.new ≡ write page.old (parts.Reserved keyword)) }
{
    page.put_token(None, keyword_text(keyword))
}

pub fn put_name(page: &mut Page, name: &Name) -> Result<(), NoMemory>
    ensures { OnOk result (page.new ≡ write page.old (parts.Named name.now)) }
{
    page.put_token(None, name.as_bytes())
}

/// A name that the language gives a meaning.
pub fn put_ascii(page: &mut Page, name: &[u8]) -> Result<(), NoMemory>
    ensures { OnOk result (page.new ≡ write page.old (parts.Named name.now)) }
{
    page.put_token(None, name)
}

pub fn put_shape(page: &mut Page, shape: Shape) -> Result<(), NoMemory>
    ensures { OnOk result (page.new ≡ write page.old (parts.TypeWord shape)) }
{
    let mut digits = [0; 20];
    let count = decimal(shape.width as u64, &mut digits);
    page.put_token(None, kind_text(shape.kind))?;
    page.append(&digits[..count])
}

/// The digits of a coding, or those of a binary number.
pub fn put_pattern(page: &mut Page, digits: &[u8]) -> Result<(), NoMemory>
    ensures { OnOk result (page.new ≡ write page.old (parts.Pattern digits.now)) }
{
    page.put_token(None, b"0b")?;
    page.append(digits)
}

pub fn put_text(page: &mut Page, bytes: &Name) -> Result<(), NoMemory>
    ensures { OnOk result (page.new ≡ write page.old (parts.Text bytes.now)) }
{
    page.put_token(None, b"\"")?;
    page.append(bytes.as_bytes())?;
    page.append(b"\"")
}

pub fn put_decimal(page: &mut Page, value: u64) -> Result<(), NoMemory>
    ensures { OnOk result (page.new ≡ write page.old (parts.Number value Decimal)) }
{
    let mut digits = [0; 20];
    let count = decimal(value, &mut digits);
    page.put_token(None, &digits[..count])
}

pub fn put_hexadecimal(page: &mut Page, value: u64) -> Result<(), NoMemory>
    ensures { OnOk result (page.new ≡ write page.old (parts.Number value Hexadecimal)) }
{
    let mut digits = [0; 16];
    let count = hex(value, &mut digits);
    page.put_token(None, b"0x")?;
    page.append(&digits[..count])
}

/// A number that was written in binary: a pattern without `x`.
pub fn put_binary(alloc: Global, page: &mut Page, value: u64) -> Result<(), NoMemory>
    ensures { OnOk result (page.new ≡ write page.old (parts.Pattern (digits 2 false value))) }
{
    let digits = format!(in alloc; "{value:b}")?;
    put_pattern(page, digits.as_bytes())
}
