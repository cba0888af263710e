//! What stands at the front of the bytes: a gap or a token.

ghost use Rattle.std.specs.Prelude.{◌≡◌, ◌+◌, ◌^◌, ◌<◌, ◌≤◌, length, IfOk};
ghost use Rattle.std.specs.List.{prefix_len};
ghost use Rattle.lisa_words.specs.Bytes.{front_is, is_digit, is_hexadecimal, is_word};
ghost use Rattle.lisa_words.specs.Gaps.{gap_at};
ghost use Rattle.lisa_tree.specs.Tokens.{is_in_string, is_pattern_digit};
ghost use Rattle.lisa_lexer.specs.Lexing.{unless_glued, past_gap, word_at, decimal_at, hexadecimal_at, pattern_at, number_at, string_at, sign_at, item_at};
ghost use Rattle.lisa_lexer.specs.Answers.{Gives};

use crate::signs::{one_byte, two_bytes};
use crate::words::word_part;
use lisa_tree::{Base, DescFault, TokenPart};
use lisa_words::{
    Gap, Name, decimal_value, hex_value, is_digit, is_hexadecimal, is_letter, is_printable,
    is_word, leading_gap,
};
use std::alloc::Global;

/// How many bytes a name has at most.
const NAME_LIMIT: usize = 64;

/// How many digits a pattern has at most.
const PATTERN_LIMIT: usize = 64;

/// What stands at the front: bytes to skip, or a token, each with its length.
#[derive(Debug, Drop)]
pub enum Item {
    Skip(usize),
    Take(usize, TokenPart),
}

fn is_pattern_digit(b: u8) -> bool
    ensures { result ≡ is_pattern_digit b }
{
    b == b'0' || b == b'1' || b == b'x'
}

fn is_in_string(b: u8) -> bool
    ensures { result ≡ is_in_string b }
{
    is_printable(b) && !(b == b'"' || b == b'\\' || b == b';' || b == b':' || b == b'@')
}

fn word_len(bytes: &[u8]) -> usize
    ensures value { result ≡ prefix_len is_word bytes.now }
    ensures within { result ≤ length bytes.now }
{
    bytes.iter().take_while(|b| is_word(**b)).count()
}

fn digits_len(bytes: &[u8]) -> usize
    ensures value { result ≡ prefix_len is_digit bytes.now }
    ensures within { result ≤ length bytes.now }
{
    bytes.iter().take_while(|b| is_digit(**b)).count()
}

fn hexadecimal_len(bytes: &[u8]) -> usize
    ensures value { result ≡ prefix_len is_hexadecimal bytes.now }
    ensures within { result ≤ length bytes.now }
{
    bytes.iter().take_while(|b| is_hexadecimal(**b)).count()
}

fn pattern_len(bytes: &[u8]) -> usize
    ensures value { result ≡ prefix_len is_pattern_digit bytes.now }
    ensures within { result ≤ length bytes.now }
{
    bytes.iter().take_while(|b| is_pattern_digit(**b)).count()
}

fn string_len(bytes: &[u8]) -> usize
    ensures value { result ≡ prefix_len is_in_string bytes.now }
    ensures within { result ≤ length bytes.now }
{
    bytes.iter().take_while(|b| is_in_string(**b)).count()
}

// Whether a name could go on with the first byte.
fn starts_word(bytes: &[u8]) -> bool
    ensures { result ≡ front_is is_word bytes.now }
{
    match bytes {
        [] => false,
        [first, ..] => is_word(*first),
    }
}

// A number or a pattern of so many bytes, unless a name goes on behind it.
fn unless_glued(at: u32, len: usize, part: TokenPart, rest: &[u8]) -> Result<Item, DescFault>
    requires { at + len < 2 ^ 32 }
    ensures { Gives (λ i. i) result (unless_glued at len part rest.now) }
{
    if starts_word(rest) {
        return Err(DescFault::BadByte {
            at: at + len as u32,
        });
    }
    Ok(Item::Take(len, part))
}

// A name, a reserved word or a type word at the front.
#[tactic(auto, unfolding(crate::specs::Lexing::word_at))]
fn word(alloc: Global, bytes: &[u8], at: u32) -> Result<Item, DescFault>
    ensures { Gives (λ i. i) result (word_at at bytes.now) }
{
    let len = word_len(bytes);
    if len > NAME_LIMIT {
        return Err(DescFault::NameTooLong { at });
    }
    let part = word_part(alloc, &bytes[..len])?;
    Ok(Item::Take(len, part))
}

// A decimal number at the front.
#[tactic(auto, unfolding(crate::specs::Lexing::decimal_at))]
fn decimal(bytes: &[u8], at: u32) -> Result<Item, DescFault>
    requires some { 0 < prefix_len is_digit bytes.now }
    requires few { at + length bytes.now < 2 ^ 32 }
    ensures { Gives (λ i. i) result (decimal_at at bytes.now) }
{
    let len = digits_len(bytes);
    let (digits, rest) = bytes.split_at(len);
    let Some(value) = decimal_value(digits) else {
        return Err(DescFault::NumberTooWide { at });
    };
    unless_glued(at, len, TokenPart::Number(value, Base::Decimal), rest)
}

// A hexadecimal number, by what stands behind its `0x`.
#[tactic(auto, unfolding(crate::specs::Lexing::hexadecimal_at))]
fn hexadecimal(body: &[u8], at: u32) -> Result<Item, DescFault>
    requires some { 0 < prefix_len is_hexadecimal body.now }
    requires few { at + (2 + length body.now) < 2 ^ 32 }
    ensures { Gives (λ i. i) result (hexadecimal_at at body.now) }
{
    let len = hexadecimal_len(body);
    let (digits, rest) = body.split_at(len);
    let Some(value) = hex_value(digits) else {
        return Err(DescFault::NumberTooWide { at });
    };
    unless_glued(
        at,
        2 + len,
        TokenPart::Number(value, Base::Hexadecimal),
        rest,
    )
}

// A pattern, by what stands behind its `0b`.
#[tactic(auto, unfolding(crate::specs::Lexing::pattern_at))]
fn pattern(alloc: Global, body: &[u8], at: u32) -> Result<Item, DescFault>
    requires { at + (2 + length body.now) < 2 ^ 32 }
    ensures { Gives (λ i. i) result (pattern_at at body.now) }
{
    let len = pattern_len(body);
    if len > PATTERN_LIMIT {
        return Err(DescFault::NumberTooWide { at });
    }
    let (digits, rest) = body.split_at(len);
    let digits = Name::from_bytes(alloc, digits)?;
    unless_glued(at, 2 + len, TokenPart::Pattern(digits), rest)
}

// A number or a pattern at the front.
#[tactic(auto, unfolding(crate::specs::Lexing::number_at))]
fn number(alloc: Global, bytes: &[u8], at: u32) -> Result<Item, DescFault>
    requires some { 0 < prefix_len is_digit bytes.now }
    requires few { at + length bytes.now < 2 ^ 32 }
    ensures { Gives (λ i. i) result (number_at at bytes.now) }
{
    match bytes {
        [b'0', b'x', digit, ..] if is_hexadecimal(*digit) => hexadecimal(&bytes[2..], at),
        [b'0', b'b', digit, ..] if is_pattern_digit(*digit) => pattern(alloc, &bytes[2..], at),
        _ => decimal(bytes, at),
    }
}

// A string, by what stands behind its first quote.
#[tactic(auto, unfolding(crate::specs::Lexing::string_at))]
fn string(alloc: Global, body: &[u8], at: u32) -> Result<Item, DescFault>
    requires { at + (1 + length body.now) < 2 ^ 32 }
    ensures { Gives (λ i. i) result (string_at at body.now) }
{
    let len = string_len(body);
    let (text, rest) = body.split_at(len);
    match rest {
        [] => Err(DescFault::BadByte { at }),
        [b'"', ..] => {
            let text = Name::from_bytes(alloc, text)?;
            Ok(Item::Take(2 + len, TokenPart::Text(text)))
        }
        _ => Err(DescFault::BadByte {
            at: at + (1 + len as u32),
        }),
    }
}

// A sign at the front, of two bytes where there is one.
#[tactic(auto, unfolding(crate::specs::Lexing::sign_at))]
fn sign(bytes: &[u8], at: u32) -> Result<Item, DescFault>
    ensures { Gives (λ i. i) result (sign_at at bytes.now) }
{
    let [first, rest @ ..] = bytes else {
        return Err(DescFault::BadByte { at });
    };
    if let [second, ..] = rest
        && let Some(sign) = two_bytes(*first, *second)
    {
        return Ok(Item::Take(2, TokenPart::Sign(sign)));
    }
    match one_byte(*first) {
        Some(sign) => Ok(Item::Take(1, TokenPart::Sign(sign))),
        None => Err(DescFault::BadByte { at }),
    }
}

// A gap or a sign at the front.
fn gap_or_sign(bytes: &[u8], at: u32) -> Result<Item, DescFault>
    requires { at + length bytes.now < 2 ^ 32 }
    ensures { Gives (λ i. i) result (past_gap at bytes.now (gap_at bytes.now)) }
{
    match leading_gap(bytes) {
        Gap::Absent => sign(bytes, at),
        Gap::Whole(len) => Ok(Item::Skip(len)),
        Gap::Broken(before) => Err(DescFault::BadByte {
            at: at + before as u32,
        }),
    }
}

/// What stands at the front.
#[tactic(auto, unfolding(crate::specs::Lexing::item_at))]
pub fn item_at(alloc: Global, bytes: &[u8], at: u32) -> Result<Item, DescFault>
    requires some { 0 < length bytes.now }
    requires few { at + length bytes.now < 2 ^ 32 }
    ensures { Gives (λ i. i) result (item_at at bytes.now) }
{
    let first = bytes[0];
    if is_letter(first) {
        return word(alloc, bytes, at);
    }
    if is_digit(first) {
        return number(alloc, bytes, at);
    }
    if let [b'"', body @ ..] = bytes {
        return string(alloc, body, at);
    }
    gap_or_sign(bytes, at)
}
