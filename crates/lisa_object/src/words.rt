// The words of a line.
ghost use Rattle.std.specs.Prelude.{ℕ, List, ◌∷◌, ◌+◌, not, IfOk, IfErr, count_by, ◌≡◌, ◌<◌, ◌≤◌, ◌^◌, ◌==◌, option_map, nat_lt, length, codes, IfSome};
ghost use Rattle.std.specs.List.{slice_split, list_any, list_all};
ghost use Rattle.std.specs.Option.{option_copied};
ghost use Rattle.text_lines.specs.Cuts.{parts_behind};
ghost use Rattle.lisa_object.specs.Reading.{first_of, is_nil, decimal_of, small_of, hex_of, nibble, pair_of, digest_of, digest_behind, opening_of, is_last};
ghost use Rattle.std.specs.Str.{bytes_eq};
ghost use Rattle.lisa_object.specs.declared.faults.Stop.TheVariants.{NoMemory};
ghost use Rattle.lisa_object.specs.Seen.{HoldsSorted};
ghost use Rattle.lisa_object.specs.Rules.{is_visible, is_visible_byte, is_depth, depths};

use crate::faults::Stop;
use lisa_words::{Name, canonical_decimal, canonical_hex};
use std::alloc::Global;
use std::collections::BTreeSet;
use text_lines::cut;

// The first word, and the words behind it, where there is one.
pub fn first_word<'a>(left: Option<&'a [u8]>) -> Option<(&'a [u8], Option<&'a [u8]>)>
    ensures { option_map (λ x. (x.0.now, parts_behind 32 (option_copied x.1))) result ≡ first_of (parts_behind 32 (option_copied left.entry)) }
{
    Some(cut(left?, b' '))
}

// Whether this is the line `end`.
pub fn is_end(line: &[u8]) -> bool
    ensures { result ≡ bytes_eq line.now (codes "end") }
{
    line == b"end".as_slice()
}

// Whether no word is left.
pub fn is_done(left: Option<&[u8]>) -> bool
    ensures { result ≡ is_nil (parts_behind 32 (option_copied left.entry)) }
{
    match left {
        Some(_) => false,
        None => true,
    }
}

// Whether a last part is empty, and no part follows it.
pub fn is_last(left: Option<&[u8]>) -> bool
    ensures { result ≡ is_last (parts_behind 10 (option_copied left.entry)) }
{
    match left {
        Some(text) => text.is_empty(),
        None => false,
    }
}

// The number that a decimal word writes.
pub fn decimal_word(word: &[u8]) -> Option<u64>
    ensures { result ≡ decimal_of word.now }
{
    canonical_decimal(word)
}

// The same, below 2^32.
#[tactic(auto, unfolding(crate::specs::Reading::small_of))]
pub fn small_word(word: &[u8]) -> Option<u32>
    ensures { result ≡ small_of word.now }
{
    let value = decimal_word(word)?;
    if value < 0x1_0000_0000 {
        Some(value as u32)
    } else {
        None
    }
}

// The number that a hexadecimal word writes.
pub fn hex_word(word: &[u8]) -> Option<u64>
    ensures { result ≡ hex_of word.now }
{
    canonical_hex(word)
}

// The value of a lower-case hexadecimal digit.
fn nibble(digit: u8) -> Option<u8>
    ensures value { result ≡ nibble digit }
    ensures small { IfSome result (λ n. n < 16) }
{
    match digit {
        b'0'..=b'9' => Some(digit - b'0'),
        b'a'..=b'f' => Some(digit - 87),
        _ => None,
    }
}

// The byte that two digits write, and what stands behind them.
fn pair(digits: &[u8]) -> Option<(u8, &[u8])>
    ensures { option_map (λ x. (x.0, x.1.now)) result ≡ pair_of digits.now }
{
    let [high, low, rest @ ..] = digits else {
        return None;
    };
    let high = nibble(*high)?;
    let low = nibble(*low)?;
    Some((16 * high + low, rest))
}

// The digest that 64 digits write.
pub fn digest_word(word: &[u8]) -> Option<[u8; 32]>
    ensures { result ≡ digest_of word.now }
{
    let mut digest = [0; 32];
    let mut rest = word;
    for i in 0..32 {
        let (byte, behind) = pair(rest)?;
        digest[i] = byte;
        rest = behind;
    }
    if rest.is_empty() { Some(digest) } else { None }
}

fn are_visible(bytes: &[u8]) -> bool
    ensures { result ≡ list_all is_visible_byte bytes.now }
{
    bytes.iter().all(|b| *b >= 33 && *b <= 126)
}

// Whether bytes are a memory's name: one or more printable bytes without a blank.
pub fn is_visible(name: &[u8]) -> bool
    ensures { result ≡ is_visible name.now }
{
    match name {
        [] => false,
        _ => are_visible(name),
    }
}

const DEPTHS: [u32; 20] = [
    2, 4, 8, 16, 32, 64, 128, 256, 512, 1_024, 2_048, 4_096, 8_192, 16_384, 32_768, 65_536,
    131_072, 262_144, 524_288, 1_048_576,
];

// Whether a memory can be so deep.
pub fn is_depth(depth: u32) -> bool
    ensures { result ≡ is_depth depth }
{
    DEPTHS.iter().any(|d| *d == depth)
}

// Whether a number is below 2^width.
pub fn fits(value: u64, width: u32) -> bool
    requires { width ≤ 64 }
    ensures { result ≡ nat_lt value (2 ^ width) }
{
    width == 64 || value < 1 << width
}

fn digest_behind(left: Option<&[u8]>) -> Option<[u8; 32]>
    ensures { result ≡ digest_behind (parts_behind 32 (option_copied left.entry)) }
{
    let (one, left) = first_word(left)?;
    let (digest, left) = first_word(left)?;
    if one != b"1".as_slice() || !is_done(left) {
        return None;
    }
    digest_word(digest)
}

// The digest in a first line of this keyword.
#[tactic(auto, unfolding(crate::specs::Reading::opening_of))]
pub fn opening(keyword: &[u8], line: &[u8]) -> Option<[u8; 32]>
    ensures { result ≡ opening_of keyword.now line.now }
{
    let (first, left) = first_word(Some(line))?;
    if first != keyword {
        return None;
    }
    digest_behind(left)
}

// Puts a name to those that were seen, and answers whether it is new.
pub fn enter(alloc: Global, seen: &mut BTreeSet<Name>, name: &[u8]) -> Result<bool, Stop>
    ensures new { (names : List (List ℕ)) → HoldsSorted seen.old names → IfOk result (λ new. (new ≡ not (list_any (bytes_eq name.now) names)) × HoldsSorted seen.new (name.now ∷ names)) }
    ensures cause { IfErr result (λ e. e ≡ NoMemory) }
{
    let name = Name::from_bytes(alloc, name)?;
    Ok(seen.insert(name)?)
}

// The number of the line in which so many bytes are left.
pub fn line_number(bytes: &[u8], left: usize) -> u32
    ensures { result ≤ 1 + count_by (λ b. b == 10) bytes.now }
{
    let (read, _) = bytes.split_at(bytes.len().saturating_sub(left));
    let count = read.iter().filter(|b| **b == b'\n').count();
    u32::try_from(count).unwrap_or(u32::MAX).saturating_add(1)
}
