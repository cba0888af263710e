//! The words that are no names.

ghost use Rattle.std.specs.Prelude.{◌≡◌, IfOk, OnErr, Err};
ghost use Rattle.lisa_lexer.specs.Reserved.{words_a_to_d, words_e_to_o, words_p_to_s, small_words, keyword_of, width_of, shape_of, word_part};
ghost use Rattle.lisa_tree.specs.declared.faults.DescFault.TheVariants as faults;

use lisa_tree::{DescFault, Keyword, Shape, TokenPart};
use lisa_words::{Kind, Name, is_digit};
use std::alloc::Global;

fn words_a_to_d(word: &[u8]) -> Option<Keyword>
    ensures { result ≡ words_a_to_d word.now }
{
    if word == b"CONTROL_REGISTER".as_slice() {
        Some(Keyword::ControlRegister)
    } else if word == b"CLOCKED".as_slice() {
        Some(Keyword::Clocked)
    } else if word == b"DATA_MEMORY".as_slice() {
        Some(Keyword::DataMemory)
    } else if word == b"ALIAS".as_slice() {
        Some(Keyword::Alias)
    } else if word == b"DECLARE".as_slice() {
        Some(Keyword::Declare)
    } else if word == b"CODING".as_slice() {
        Some(Keyword::Coding)
    } else if word == b"BEHAVIOR".as_slice() {
        Some(Keyword::Behavior)
    } else if word == b"ACTIVATION".as_slice() {
        Some(Keyword::Activation)
    } else {
        None
    }
}

fn words_e_to_o(word: &[u8]) -> Option<Keyword>
    ensures { result ≡ words_e_to_o word.now }
{
    if word == b"MEMORY".as_slice() {
        Some(Keyword::Memory)
    } else if word == b"IN".as_slice() {
        Some(Keyword::In)
    } else if word == b"OUT".as_slice() {
        Some(Keyword::Out)
    } else if word == b"OPERATION".as_slice() {
        Some(Keyword::Operation)
    } else if word == b"GROUP".as_slice() {
        Some(Keyword::Group)
    } else if word == b"INSTANCE".as_slice() {
        Some(Keyword::Instance)
    } else if word == b"LABEL".as_slice() {
        Some(Keyword::Label)
    } else if word == b"EXPRESSION".as_slice() {
        Some(Keyword::Expression)
    } else {
        None
    }
}

fn words_p_to_s(word: &[u8]) -> Option<Keyword>
    ensures { result ≡ words_p_to_s word.now }
{
    if word == b"RESOURCE".as_slice() {
        Some(Keyword::Resource)
    } else if word == b"REGISTER".as_slice() {
        Some(Keyword::Register)
    } else if word == b"PROGRAM_COUNTER".as_slice() {
        Some(Keyword::ProgramCounter)
    } else if word == b"PROGRAM_MEMORY".as_slice() {
        Some(Keyword::ProgramMemory)
    } else if word == b"PIN".as_slice() {
        Some(Keyword::Pin)
    } else if word == b"PIPELINE".as_slice() {
        Some(Keyword::Pipeline)
    } else if word == b"PIPELINE_REGISTER".as_slice() {
        Some(Keyword::PipelineRegister)
    } else if word == b"REFERENCE".as_slice() {
        Some(Keyword::Reference)
    } else if word == b"SYNTAX".as_slice() {
        Some(Keyword::Syntax)
    } else if word == b"SEMANTICS".as_slice() {
        Some(Keyword::Semantics)
    } else {
        None
    }
}

fn small_words(word: &[u8]) -> Option<Keyword>
    ensures { result ≡ small_words word.now }
{
    if word == b"if".as_slice() {
        Some(Keyword::If)
    } else if word == b"else".as_slice() {
        Some(Keyword::Else)
    } else if word == b"while".as_slice() {
        Some(Keyword::While)
    } else if word == b"for".as_slice() {
        Some(Keyword::For)
    } else if word == b"decoded".as_slice() {
        Some(Keyword::Decoded)
    } else {
        None
    }
}
// The reserved word that a word is.
#[tactic(auto, unfolding(crate::specs::Reserved::keyword_of))]
fn keyword(word: &[u8]) -> Option<Keyword>
    ensures { result ≡ keyword_of word.now }
{
    match word {
        [b'A'..=b'D', ..] => words_a_to_d(word),
        [b'E'..=b'O', ..] => words_e_to_o(word),
        [b'P'..=b'S', ..] => words_p_to_s(word),
        [b'd'..=b'w', ..] => small_words(word),
        _ => None,
    }
}

// A width of one or two digits without a leading zero.
fn width(digits: &[u8]) -> Option<u32>
    ensures { result ≡ width_of digits.now }
{
    match digits {
        [d @ b'1'..=b'9'] => Some(u32::from(*d - b'0')),
        [d @ b'1'..=b'9', e] if is_digit(*e) => Some(
            10 * u32::from(*d - b'0') + u32::from(*e - b'0'),
        ),
        _ => None,
    }
}

// The type that a word is.
#[tactic(auto, unfolding(crate::specs::Reserved::shape_of))]
fn shape(word: &[u8]) -> Option<Shape>
    ensures { result ≡ shape_of word.now }
{
    let (kind, digits) = match word {
        [b'u', b'i', b'n', b't', digits @ ..] => (Kind::Unsigned, digits),
        [b'i', b'n', b't', digits @ ..] => (Kind::Signed, digits),
        _ => return None,
    };
    let width = width(digits)?;
    Some(Shape { kind, width })
}

/// The token that a run of letters, digits and `_` is: a reserved word, a type word or a name.
#[tactic(auto, unfolding(crate::specs::Reserved::word_part))]
pub fn word_part(alloc: Global, word: &[u8]) -> Result<TokenPart, DescFault>
    ensures part { IfOk result (λ part. part ≡ word_part word.now) }
    ensures only { OnErr result (result ≡ Err faults.NoMemory) }
{
    if let Some(keyword) = keyword(word) {
        return Ok(TokenPart::Reserved(keyword));
    }
    if let Some(shape) = shape(word) {
        return Ok(TokenPart::TypeWord(shape));
    }
    Ok(TokenPart::Named(Name::from_bytes(alloc, word)?))
}
