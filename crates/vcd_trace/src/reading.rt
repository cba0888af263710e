// The parts at the front of what is left of a dump.
ghost use Rattle.std.specs.Prelude.{◌≡◌, ◌≤◌, ◌⊎◌, option_map, IfSome};
ghost use Rattle.vcd_trace.specs.Left.{words_left, end_at};
ghost use Rattle.vcd_trace.specs.Parts.{behind_end, behind_note, behind_scope, behind_range, variable_of, change_at, time_of, scalar_of, vector_of, event_of, part_by, keyword_of};

use crate::keywords::{Keyword, is_end, word_kind};
use crate::left::{Word, Words};
use crate::parts::{Declaration, Event, Moment, NewValue, Part};
use crate::texts::{bits, is_binary, is_range, numeral};
use crate::words::next_word;

// What stands behind a word `$end`.
fn past_end(words: Words<'_>) -> Option<Words<'_>>
    ensures rest { option_map words_left result ≡ behind_end (words_left words.entry) }
    ensures forward { IfSome result (λ rest. words.entry.at ≤ rest.at) }
    ensures kept { IfSome result (λ rest. end_at rest ≡ end_at words.entry) }
{
    let (word, rest) = next_word(words)?;
    if is_end(word.text) { Some(rest) } else { None }
}

// What stands behind the first word `$end`.
fn past_note(words: Words<'_>) -> Option<Words<'_>>
    ensures rest { option_map words_left result ≡ behind_note (words_left words.entry) }
    ensures forward { IfSome result (λ rest. words.entry.at ≤ rest.at) }
    ensures kept { IfSome result (λ rest. end_at rest ≡ end_at words.entry) }
{
    let mut left = words;
    while let Some((word, rest)) = next_word(left) {
        if is_end(word.text) {
            return Some(rest);
        }
        left = rest;
    }
    None
}

// What stands behind the type and the name of a scope.
fn past_scope(words: Words<'_>) -> Option<Words<'_>>
    ensures rest { option_map words_left result ≡ behind_scope (words_left words.entry) }
    ensures forward { IfSome result (λ rest. words.entry.at ≤ rest.at) }
    ensures kept { IfSome result (λ rest. end_at rest ≡ end_at words.entry) }
{
    let (_, rest) = next_word(words)?;
    let (_, rest) = next_word(rest)?;
    past_end(rest)
}

// What stands behind a range, where there is one, and a word `$end`.
fn past_range(words: Words<'_>) -> Option<Words<'_>>
    ensures rest { option_map words_left result ≡ behind_range (words_left words.entry) }
    ensures forward { IfSome result (λ rest. words.entry.at ≤ rest.at) }
    ensures kept { IfSome result (λ rest. end_at rest ≡ end_at words.entry) }
{
    let (word, rest) = next_word(words)?;
    if is_end(word.text) {
        return Some(rest);
    }
    if is_range(word.text) {
        return past_end(rest);
    }
    None
}

fn read_variable<'a>(words: Words<'a>) -> Option<(Part<'a>, Words<'a>)>
    ensures part { option_map (λ x. (x.0, words_left x.1)) result ≡ variable_of (words_left words.entry) }
    ensures forward { IfSome result (λ x. words.entry.at ≤ x.1.at) }
    ensures kept { IfSome result (λ x. end_at x.1 ≡ end_at words.entry) }
{
    let (_, rest) = next_word(words)?;
    let (width, rest) = next_word(rest)?;
    let (code, rest) = next_word(rest)?;
    let (name, rest) = next_word(rest)?;
    let width = numeral(width.text)?;
    let rest = past_range(rest)?;
    let declaration = Declaration {
        code: code.text,
        name: name.text,
        width,
    };
    Some((Part::Declares(declaration), rest))
}

fn read_time<'a>(at: u32, text: &[u8]) -> Option<Part<'a>>
    ensures { result ≡ time_of at text.now }
{
    let time = numeral(text)?;
    Some(Part::Happens(Event::Time(Moment { at, time })))
}

fn make_change(at: u32, code: &[u8], value: Option<u64>) -> Part<'_>
    ensures { result ≡ change_at at code.now value }
{
    Part::Happens(Event::Change(NewValue { at, code, value }))
}

// A binary digit and its code.
fn read_scalar(at: u32, digit: u8, code: &[u8]) -> Option<Part<'_>>
    requires { (digit ≡ 48) ⊎ (digit ≡ 49) }
    ensures { result ≡ scalar_of at digit code.now }
{
    if code.is_empty() {
        return None;
    }
    Some(make_change(at, code, Some(u64::from(digit - b'0'))))
}

// Digits, whose code is the next word.
fn read_vector<'a>(at: u32, digits: &'a [u8], words: Words<'a>) -> Option<(Part<'a>, Words<'a>)>
    ensures part { option_map (λ x. (x.0, words_left x.1)) result ≡ vector_of at digits.now (words_left words.entry) }
    ensures forward { IfSome result (λ x. words.entry.at ≤ x.1.at) }
    ensures kept { IfSome result (λ x. end_at x.1 ≡ end_at words.entry) }
{
    if !is_binary(digits) {
        return None;
    }
    let (code, rest) = next_word(words)?;
    Some((make_change(at, code.text, bits(digits)), rest))
}

// The time or the change that a word begins.
fn read_event<'a>(at: u32, word: &'a [u8], words: Words<'a>) -> Option<(Part<'a>, Words<'a>)>
    ensures part { option_map (λ x. (x.0, words_left x.1)) result ≡ event_of at word.now (words_left words.entry) }
    ensures forward { IfSome result (λ x. words.entry.at ≤ x.1.at) }
    ensures kept { IfSome result (λ x. end_at x.1 ≡ end_at words.entry) }
{
    let [sign, text @ ..] = word else {
        return None;
    };
    if *sign == b'#' {
        return Some((read_time(at, text)?, words));
    }
    if *sign == b'0' || *sign == b'1' {
        return Some((read_scalar(at, *sign, text)?, words));
    }
    if *sign == b'b' || *sign == b'B' {
        return read_vector(at, text, words);
    }
    None
}

/// The part that a word begins, and what is left behind it.
pub(crate) fn read_part<'a>(word: Word<'a>, words: Words<'a>) -> Option<(Part<'a>, Words<'a>)>
    ensures part { option_map (λ x. (x.0, words_left x.1)) result ≡ part_by (keyword_of word.entry.text) word.entry (words_left words.entry) }
    ensures forward { IfSome result (λ x. words.entry.at ≤ x.1.at) }
    ensures kept { IfSome result (λ x. end_at x.1 ≡ end_at words.entry) }
{
    match word_kind(word.text) {
        Keyword::End => Some((Part::Ends, words)),
        Keyword::Note => Some((Part::Note, past_note(words)?)),
        Keyword::Comment => Some((Part::Comment, past_note(words)?)),
        Keyword::Scope => Some((Part::Opens, past_scope(words)?)),
        Keyword::Upscope => Some((Part::Closes, past_end(words)?)),
        Keyword::Var => read_variable(words),
        Keyword::Definitions => Some((Part::Definitions, past_end(words)?)),
        Keyword::Mark => Some((Part::Begins, words)),
        Keyword::Other => read_event(word.at, word.text, words),
    }
}
