// The words of a text, one behind the other.
ghost use Rattle.std.specs.Prelude.{◌≡◌, ◌+◌, ◌<◌, ◌≤◌, ◌^◌, length, option_map, IfSome};
ghost use Rattle.std.specs.List.{prefix_len};
ghost use Rattle.lisa_words.specs.Bytes.{is_blank};
ghost use Rattle.vcd_trace.specs.VcdWords.{is_solid};
ghost use Rattle.vcd_trace.specs.Parts.{next_of};
ghost use Rattle.vcd_trace.specs.Left.{words_left, end_at};

use crate::left::{Word, Words};
use lisa_words::is_blank;

/// All words of a text.
pub(crate) fn all_words(bytes: &[u8]) -> Words<'_>
    requires { length bytes.now < 2 ^ 32 }
    ensures start { result.at ≡ 0 }
    ensures rest { result.rest.now ≡ bytes.now }
{
    Words { at: 0, rest: bytes }
}

fn blank_length(bytes: &[u8]) -> usize
    ensures value { result ≡ prefix_len is_blank bytes.now }
    ensures within { result ≤ length bytes.now }
{
    bytes.iter().take_while(|b| is_blank(**b)).count()
}

fn solid_length(bytes: &[u8]) -> usize
    ensures value { result ≡ prefix_len is_solid bytes.now }
    ensures within { result ≤ length bytes.now }
{
    bytes.iter().take_while(|b| !is_blank(**b)).count()
}

/// The next word, and what is left behind it.
pub fn next_word<'a>(words: Words<'a>) -> Option<(Word<'a>, Words<'a>)>
    ensures next { option_map (λ x. (x.0, words_left x.1)) result ≡ next_of (words_left words.entry) }
    ensures here { IfSome result (λ x. x.0.at ≤ x.1.at) }
    ensures forward { IfSome result (λ x. words.entry.at < x.1.at) }
    ensures kept { IfSome result (λ x. end_at x.1 ≡ end_at words.entry) }
{
    let gap = blank_length(words.rest);
    let (_, rest) = words.rest.split_at(gap);
    let size = solid_length(rest);
    if size == 0 {
        return None;
    }
    let (text, rest) = rest.split_at(size);
    let at = words.at + gap as u32;
    let behind = Words {
        at: at + size as u32,
        rest,
    };
    Some((Word { at, text }, behind))
}
