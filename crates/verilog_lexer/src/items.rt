// What stands at the front of the bytes: a gap or a token.
ghost use Rattle.std.specs.Prelude.{◌≡◌, ◌+◌, ◌^◌, ◌<◌, ◌≤◌, ◌++◌, ◌∷◌, [], length, take, drop, IfOk, IfSome, Some, None, true, nat_lt, ◌==◌, ◌-◌};
ghost use Rattle.std.specs.List.{prefix_len, list_all};
ghost use Rattle.lisa_words.specs.Bytes.{front_is, is_digit, is_blank, is_letter};
ghost use Rattle.lisa_words.specs.Gaps.{gap_at};
ghost use Rattle.verilog_text.specs.Tokens.{vtok_of_part, Sized, Plain};
ghost use Rattle.verilog_text.specs.Lexing.{is_name_byte, is_graphic, is_more_digit, digits_number};
ghost use Rattle.verilog_lexer.specs.Reading.{word_at, escaped_at, sized_at, sign_at, longest_at, judged, verdict, past_gap, item_at, loose, goes_on, sized_verdict, fitting, based_verdict, base_behind};
ghost use Rattle.verilog_lexer.specs.Answers.{result_word};
ghost use Rattle.verilog_lexer.specs.Answers.{Gives, item_of};

use crate::numbers::{
    base_of, digits_value, is_base_digit, is_graphic, is_more_digit, is_name_byte,
};
use crate::signs::{one_byte, two_bytes};
use crate::words::word_part;
use lisa_words::{Gap, Name, Word, is_blank, is_digit, is_letter, leading_gap};
use std::alloc::Global;
use verilog_text::{VTokenPart, VerilogFault};

/// What stands at the front: bytes to skip, or a token, each with its length.
#[derive(Debug, Drop)]
pub enum Found {
    Skip(usize),
    Take(usize, VTokenPart),
}

fn name_len(bytes: &[u8]) -> usize
    ensures value { result ≡ prefix_len is_name_byte bytes.now }
    ensures within { result ≤ length bytes.now }
{
    bytes.iter().take_while(|b| is_name_byte(**b)).count()
}

fn graphic_len(bytes: &[u8]) -> usize
    ensures value { result ≡ prefix_len is_graphic bytes.now }
    ensures within { result ≤ length bytes.now }
{
    bytes.iter().take_while(|b| is_graphic(**b)).count()
}

fn digits_len(bytes: &[u8]) -> usize
    ensures value { result ≡ prefix_len is_digit bytes.now }
    ensures within { result ≤ length bytes.now }
{
    bytes.iter().take_while(|b| is_digit(**b)).count()
}

fn more_len(base: u8, bytes: &[u8]) -> usize
    ensures value { result ≡ prefix_len (is_more_digit base) bytes.now }
    ensures within { result ≤ length bytes.now }
{
    bytes
        .iter()
        .take_while(|b| is_more_digit(base, **b))
        .count()
}

// Whether a name could go on with the first byte.
fn starts_name(bytes: &[u8]) -> bool
    ensures { result ≡ front_is is_name_byte bytes.now }
{
    match bytes {
        [] => false,
        [first, ..] => is_name_byte(*first),
    }
}

fn starts_blank(bytes: &[u8]) -> bool
    ensures { result ≡ front_is is_blank bytes.now }
{
    match bytes {
        [] => false,
        [first, ..] => is_blank(*first),
    }
}

fn starts_question(bytes: &[u8]) -> bool
    ensures { result ≡ front_is (λ b. b == 63) bytes.now }
{
    match bytes {
        [] => false,
        [first, ..] => *first == b'?',
    }
}

fn starts_quote(bytes: &[u8]) -> bool
    ensures { result ≡ front_is (λ b. b == 39) bytes.now }
{
    match bytes {
        [] => false,
        [first, ..] => *first == b'\'',
    }
}

fn starts_zero(bytes: &[u8]) -> bool
    ensures { result ≡ front_is (λ b. b == 48) bytes.now }
{
    match bytes {
        [] => false,
        [first, ..] => *first == b'0',
    }
}

// A number of so many bytes, unless a name goes on behind it.
fn unless_glued(at: u32, len: usize, part: VTokenPart, rest: &[u8]) -> Result<Found, VerilogFault>
    requires { at + len < 2 ^ 32 }
    ensures { Gives item_of result (loose at len (vtok_of_part part) rest.now) }
{
    if starts_name(rest) {
        return Err(VerilogFault::BadByte {
            at: at + len as u32,
        });
    }
    Ok(Found::Take(len, part))
}

// A name or a reserved word at the front.
fn word(alloc: Global, bytes: &[u8], at: u32) -> Result<Found, VerilogFault>
    requires { front_is is_letter bytes.now ≡ true }
    ensures { Gives item_of result (judged at bytes.now (word_at bytes.now)) }
{
    let len = name_len(bytes);
    let part = word_part(alloc, &bytes[..len])?;
    Ok(Found::Take(len, part))
}

// An escaped name, by what stands behind its backslash.
fn escaped(alloc: Global, body: &[u8], at: u32) -> Result<Found, VerilogFault>
    requires { at + (1 + length body.now) < 2 ^ 32 }
    ensures { Gives item_of result (judged at (92 ∷ body.now) (escaped_at body.now)) }
{
    let len = graphic_len(body);
    let (name, rest) = body.split_at(len);
    if len == 0 || !starts_blank(rest) {
        return Err(VerilogFault::BadByte { at });
    }
    let name = Name::from_bytes(alloc, name)?;
    Ok(Found::Take(1 + len, VTokenPart::Named(name)))
}

// Digits alone, where the rest follows.
fn plain(digits: &[u8], rest: &[u8], at: u32) -> Result<Found, VerilogFault>
    requires { at + length digits.now < 2 ^ 32 }
    ensures { Gives item_of result (verdict at (length digits.now) digits.now (Plain (digits_number 10 digits.now) (length digits.now)) rest.now) }
{
    let Some(value) = digits_value(10, digits) else {
        return Err(VerilogFault::BadByte { at });
    };
    if value >= 1 << 31 {
        return Err(VerilogFault::BadByte { at });
    }
    if starts_quote(rest) {
        return Err(VerilogFault::BadByte { at });
    }
    let part = VTokenPart::Plain(value as u32, digits.len() as u32);
    unless_glued(at, digits.len(), part, rest)
}

// Whether a value has a width.
fn fits(value: u64, width: u32) -> bool
    requires { width ≤ 64 }
    ensures { result ≡ nat_lt value (2 ^ width) }
{
    (value as u128) < (1 << width)
}

// A value of a size, if it fits.
fn word_of(size: &[u8], base: u8, digits: &[u8]) -> Option<Word>
    requires least { 1 ≤ digits_number 10 size.now }
    requires some { 1 ≤ base }
    ensures { result_word result ≡ fitting (digits_number 10 size.now) (digits_number base digits.now) }
{
    let width = digits_value(10, size)?;
    if width > 64 {
        return None;
    }
    let bits = digits_value(base, digits)?;
    let width = width as u32;
    if fits(bits, width) {
        Some(Word { bits, width })
    } else {
        None
    }
}

// Whether a number of a base may not stand directly before this: a name goes on, or one more digit of unknown bits.
fn goes_on(base: u8, rest: &[u8]) -> bool
    ensures { result ≡ goes_on base rest.now }
{
    starts_name(rest) || (starts_question(rest) && base != 10)
}

// A number with its size and its base, by its digits and what stands behind them.
fn sized(size: &[u8], base: u8, digits: &[u8], rest: &[u8], at: u32) -> Result<Found, VerilogFault>
    requires least { 1 ≤ digits_number 10 size.now }
    requires some { 1 ≤ base }
    requires few { at + (length size.now + (2 + length digits.now)) < 2 ^ 32 }
    ensures { Gives item_of result (sized_verdict at (length size.now + (2 + length digits.now)) base (Sized (digits_number 10 size.now) (digits_number base digits.now)) rest.now) }
{
    let Some(word) = word_of(size, base, digits) else {
        return Err(VerilogFault::BadByte { at });
    };
    let len = size.len() + (2 + digits.len());
    if goes_on(base, rest) {
        return Err(VerilogFault::BadByte {
            at: at + len as u32,
        });
    }
    Ok(Found::Take(len, VTokenPart::Sized(word)))
}

// A size and the letter of a base, by what stands behind them.
fn based(size: &[u8], base: u8, body: &[u8], at: u32) -> Result<Found, VerilogFault>
    requires least { 1 ≤ digits_number 10 size.now }
    requires some { 1 ≤ base }
    requires first { 0 < length body.now }
    requires few { at + (length size.now + (2 + length body.now)) < 2 ^ 32 }
    ensures { Gives item_of result (based_verdict at size.now base body.now) }
{
    let len = 1 + more_len(base, &body[1..]);
    let (digits, rest) = body.split_at(len);
    sized(size, base, digits, rest, at)
}

// The base of the number that a size begins, by what stands behind the size.
fn base_behind(size: &[u8], rest: &[u8]) -> Option<u8>
    ensures value { result ≡ base_behind size.now rest.now }
    ensures some { IfSome result (λ base. 1 ≤ base) }
{
    let [b'\'', letter, digit, ..] = rest else {
        return None;
    };
    if starts_zero(size) {
        return None;
    }
    let base = base_of(*letter)?;
    if is_base_digit(base, *digit) {
        Some(base)
    } else {
        None
    }
}

// A number, by its first digits and what stands behind them.
fn number(size: &[u8], rest: &[u8], at: u32) -> Result<Found, VerilogFault>
    requires all { list_all is_digit size.now ≡ true }
    requires some { 0 < length size.now }
    requires few { at + (length size.now + length rest.now) < 2 ^ 32 }
    ensures { Gives item_of result (judged at (size.now ++ rest.now) (sized_at size.now rest.now)) }
{
    match base_behind(size, rest) {
        Some(base) => based(size, base, behind_letter(rest), at),
        None => plain(size, rest, at),
    }
}

// What stands behind two bytes.
fn behind_letter(rest: &[u8]) -> &[u8]
    ensures value { result.now ≡ drop 2 rest.now }
    ensures len { length result.now ≡ length rest.now - 2 }
{
    match rest {
        [_, _, body @ ..] => body,
        _ => &[],
    }
}

// A sign at the front, of two bytes where there is one.
fn sign(bytes: &[u8], at: u32) -> Result<Found, VerilogFault>
    ensures { Gives item_of result (judged at bytes.now (sign_at bytes.now)) }
{
    let [first, rest @ ..] = bytes else {
        return Err(VerilogFault::BadByte { at });
    };
    if let [second, ..] = rest
        && let Some(sign) = two_bytes(*first, *second)
    {
        return Ok(Found::Take(2, VTokenPart::Sign(sign)));
    }
    match one_byte(*first) {
        Some(sign) => Ok(Found::Take(1, VTokenPart::Sign(sign))),
        None => Err(VerilogFault::BadByte { at }),
    }
}

// A token at the front.
#[tactic(auto, unfolding(crate::specs::Reading::longest_at))]
fn token(alloc: Global, bytes: &[u8], at: u32) -> Result<Found, VerilogFault>
    requires some { 0 < length bytes.now }
    requires few { at + length bytes.now < 2 ^ 32 }
    ensures { Gives item_of result (judged at bytes.now (longest_at bytes.now)) }
{
    let first = bytes[0];
    if is_letter(first) {
        return word(alloc, bytes, at);
    }
    if let [b'\\', body @ ..] = bytes {
        return escaped(alloc, body, at);
    }
    if is_digit(first) {
        let (digits, rest) = bytes.split_at(digits_len(bytes));
        return number(digits, rest, at);
    }
    sign(bytes, at)
}

/// What stands at the front.
#[tactic(auto, unfolding(crate::specs::Reading::item_at))]
pub fn item_at(alloc: Global, bytes: &[u8], at: u32) -> Result<Found, VerilogFault>
    requires some { 0 < length bytes.now }
    requires few { at + length bytes.now < 2 ^ 32 }
    ensures { Gives item_of result (item_at at bytes.now) }
{
    match leading_gap(bytes) {
        Gap::Absent => token(alloc, bytes, at),
        Gap::Whole(len) => Ok(Found::Skip(len)),
        Gap::Broken(before) => Err(VerilogFault::BadByte {
            at: at + before as u32,
        }),
    }
}
