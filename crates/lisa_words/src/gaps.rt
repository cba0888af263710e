//! Blanks and comments.

ghost use Rattle.std.specs.Prelude.{◌≡◌, ◌+◌, ◌≤◌, ◌++◌, ℕ, List, length, IfSome};
ghost use Rattle.std.specs.List.{prefix_len};
ghost use Rattle.lisa_words.specs.Bytes.{is_blank, is_text, is_in_line};
ghost use Rattle.lisa_words.specs.Gaps.{end_of, IsGap, BrokenGap, GapFits, GapIs, line_at, block_at, gap_at};

use crate::bytes::{is_blank, is_in_line, is_text};

/// What stands at the front of a text.
#[derive(Clone, Copy, Debug, PartialEq, Eq)]
pub enum Gap {
    /// Neither a blank nor a comment.
    Absent,
    /// So many bytes of blanks, or of one comment.
    Whole(usize),
    /// A comment that is at fault, and how many bytes stand before the byte to blame: one that no text has, or the
    /// comment's first where it doesn't end.
    Broken(usize),
}

fn blanks_len(bytes: &[u8]) -> usize
    ensures { result ≡ prefix_len is_blank bytes.now }
{
    bytes.iter().take_while(|b| is_blank(**b)).count()
}

// How many bytes the line goes on.
fn line_len(bytes: &[u8]) -> usize
    ensures value { result ≡ prefix_len is_in_line bytes.now }
    ensures within { result ≤ length bytes.now }
{
    bytes.iter().take_while(|b| is_in_line(**b)).count()
}

// How many bytes of a text there are.
fn text_len(bytes: &[u8]) -> usize
    ensures value { result ≡ prefix_len is_text bytes.now }
    ensures within { result ≤ length bytes.now }
{
    bytes.iter().take_while(|b| is_text(**b)).count()
}

// How many bytes stand before the first `*/`.
fn end_of(body: &[u8]) -> Option<usize>
    ensures value { result ≡ end_of body.now }
    ensures within { IfSome result (λ n. n + 2 ≤ length body.now) }
{
    for i in 1..body.len() {
        if body[i - 1] == b'*' && body[i] == b'/' {
            return Some(i - 1);
        }
    }
    None
}

// A comment to the end of the line, by what stands behind its `//`.
fn line_comment(body: &[u8]) -> Gap
    ensures { result ≡ line_at body.now }
{
    let len = line_len(body);
    match &body[len..] {
        [] | [b'\n', ..] => Gap::Whole(len + 2),
        _ => Gap::Broken(len + 2),
    }
}

// A comment to the next `*/`, by what stands behind its `/*`.
fn block_comment(body: &[u8]) -> Gap
    ensures { result ≡ block_at body.now }
{
    let Some(end) = end_of(body) else {
        return Gap::Broken(0);
    };
    let len = text_len(&body[..end]);
    if len == end {
        Gap::Whole(4 + end)
    } else {
        Gap::Broken(2 + len)
    }
}

#[tactic(auto, unfolding(crate::specs::Gaps::gap_at))]
fn gap_at(bytes: &[u8]) -> Gap
    ensures { result ≡ gap_at bytes.now }
{
    match bytes {
        [b'/', b'/', body @ ..] => line_comment(body),
        [b'/', b'*', body @ ..] => block_comment(body),
        [first, ..] if is_blank(*first) => Gap::Whole(blanks_len(bytes)),
        _ => Gap::Absent,
    }
}

/// What stands at the front of a text: blanks, as many as there are; a comment; or neither.
pub fn leading_gap(bytes: &[u8]) -> Gap
    ensures value { result ≡ gap_at bytes.now }
    ensures found { GapIs bytes.now result }
    ensures within { GapFits bytes.now result }
    ensures only { (text rest : List ℕ) → bytes.now ≡ text ++ rest → IsGap text rest → result ≡ Gap.Whole (length text) }
    ensures only_broken { (n : ℕ) → BrokenGap bytes.now n → result ≡ Gap.Broken n }
{
    gap_at(bytes)
}
