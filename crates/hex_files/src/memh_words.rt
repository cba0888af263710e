// Words of a `$readmemh` file.
ghost use Rattle.std.specs.Prelude.{◌≡◌, ◌+◌, ◌*◌, ◌^◌, ◌<◌, ◌≤◌, ℕ, List, [], ◌∷◌, Option, Some, None, SomeIff, IfSome, ◌==◌, ◌||◌, length, option_map};
ghost use Rattle.std.specs.Char.{digit_value, is_digit};
ghost use Rattle.std.specs.List.{list_all};
ghost use Rattle.lisa_words.specs.Gaps.{starts_comment};
ghost use Rattle.hex_files.specs.MemhReading.{ends_word, word_len, is_number, words_from, number_of, word_of};
ghost use Rattle.hex_files.specs.MemhGives.{words_after};

use lisa_words::{Gap, is_blank, leading_gap};

/// What a word says.
#[derive(Clone, Copy, Debug, PartialEq, Eq)]
pub enum MemhWord {
    /// The index of the next cell.
    Index(u64),
    /// The value of a cell.
    Value(u64),
}

// A number with one more hexadecimal digit behind it, where the byte is a digit and the number stays below 2^64.
fn with_digit(value: u64, byte: u8) -> Option<u64>
    ensures { let next = value * 16 + digit_value byte in SomeIff result ((digit_value byte < 16) × (next < 2 ^ 64)) next }
{
    let digit = char::from(byte).to_digit(16)?;
    value.checked_mul(16)?.checked_add(u64::from(digit))
}

fn is_digit(byte: u8) -> bool
    ensures { result ≡ is_digit byte 16 }
{
    char::from(byte).is_digit(16)
}

fn are_digits(text: &[u8]) -> bool
    ensures { result ≡ list_all (λ c. c == 95 || is_digit c 16) text.now }
{
    text.iter().all(|byte| *byte == b'_' || is_digit(*byte))
}

// Whether a text is hexadecimal digits, with `_` anywhere behind the first.
fn is_number(text: &[u8]) -> bool
    ensures { result ≡ is_number text.now }
{
    match text {
        [] => false,
        [first, rest @ ..] => is_digit(*first) && are_digits(rest),
    }
}

// The number that a text writes.
#[tactic(auto, using(crate::proofs::NumberLoop::no_number))]
fn number(text: &[u8]) -> Option<u64>
    ensures { result ≡ number_of text.now }
{
    if !is_number(text) {
        return None;
    }
    let mut value = 0;
    for &byte in text {
        if byte != b'_' {
            value = with_digit(value, byte)?;
        }
    }
    Some(value)
}

// What a word says, if it says anything.
#[tactic(auto, unfolding(crate::specs::MemhReading::word_of))]
pub fn word(text: &[u8]) -> Option<MemhWord>
    ensures { result ≡ word_of text.now }
{
    let [first, digits @ ..] = text else {
        return None;
    };
    if *first == b'@' {
        Some(MemhWord::Index(number(digits)?))
    } else {
        Some(MemhWord::Value(number(text)?))
    }
}

fn starts_comment(text: &[u8]) -> bool
    ensures { result ≡ starts_comment text.now }
{
    matches!(text, [b'/', b'/' | b'*', ..])
}

// Whether a blank or a comment begins.
fn ends_word(text: &[u8]) -> bool
    ensures { result ≡ ends_word text.now }
{
    match text {
        [] => false,
        [first, ..] => is_blank(*first) || starts_comment(text),
    }
}

// How many bytes stand before the first blank or comment.
fn word_len(text: &[u8]) -> usize
    ensures value { result ≡ word_len text.now }
    ensures within { result ≤ length text.now }
{
    for place in 0..text.len() {
        let (_, rest) = text.split_at(place);
        if ends_word(rest) {
            return place;
        }
    }
    text.len()
}

// The next word, with how many bytes stand before it and what stands behind it. A comment that is at fault is an empty word
// at the byte to blame, with nothing behind it.
pub fn next_word(text: &[u8]) -> Option<(usize, &[u8], &[u8])>
    ensures words { (at : ℕ) → words_from at text.now ≡ words_after at (option_map (λ x. (x.0, x.1.now, x.2.now)) result) }
    ensures within { IfSome result (λ x. x.0 + length x.1.now + length x.2.now ≤ length text.now) }
    ensures shorter { IfSome result (λ x. length x.2.now < length text.now) }
{
    let mut skipped = 0;
    'gaps: loop {
        let (_, rest) = text.split_at(skipped);
        if rest.is_empty() {
            return None;
        }
        match leading_gap(rest) {
            Gap::Absent => {
                let (word, behind) = rest.split_at(word_len(rest));
                return Some((skipped, word, behind));
            }
            Gap::Whole(len) => skipped += len,
            Gap::Broken(len) => {
                let (_, nothing) = text.split_at(text.len());
                return Some((skipped + len, nothing, nothing));
            }
        }
    }
}
