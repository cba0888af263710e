//! Codings.

ghost use Rattle.std.specs.Prelude.{◌≡◌, ◌<◌, ◌≤◌, IfOk, IfErr, length};
ghost use Rattle.lisa_tree.specs.Expressions.{expr_tree};
ghost use Rattle.lisa_tree.specs.Descriptions.{coding_tree};
ghost use Rattle.lisa_tree.specs.Tokens.{toks};
ghost use Rattle.lisa_behav_reader.specs.Gives.{Gives, IsLeft};
ghost use Rattle.lisa_section_reader.specs.Codings.{count_of, repeated_of, times_of, bits_of, field_of, element_of, element_list_of, items_of, group_of, root_of, coding_of};

use crate::resources::ends;
use lisa_behav_reader::{Missed, name, past};
use lisa_tree::{CodingItem, CodingPart, Expr, Keyword, Pattern, Sign, Token, TokenPart};
use lisa_words::Name;
use std::alloc::Global;

// How often a digit may stand.
fn count(times: u64) -> Option<u32>
    ensures { result ≡ count_of times }
{
    if 1 <= times && times <= 65_535 {
        Some(times as u32)
    } else {
        None
    }
}

// One digit that stands some number of times.
fn repeated(digits: Name, times: u64) -> Option<Pattern>
    ensures { result ≡ repeated_of digits times }
{
    if digits.as_bytes().len() != 1 {
        return None;
    }
    match count(times) {
        Some(times) => Some(Pattern {
            digits,
            times: Some(times),
        }),
        None => None,
    }
}

// A pattern, behind its digits.
fn times(digits: Name, tokens: &[Token]) -> Result<(Pattern, &[Token]), Missed>
    ensures exact { Gives (λ x. (x.0, toks x.1.now)) result (times_of digits (toks tokens.now)) }
    ensures shorter { IfOk result (λ x. length x.1.now ≤ length tokens.now) }
    ensures place { IfErr result (IsLeft (length tokens.now)) }
{
    match tokens {
        [
            Token {
                part: TokenPart::Sign(Sign::OpenSquare),
                ..
            },
            Token {
                part: TokenPart::Number(times, _),
                ..
            },
            Token {
                part: TokenPart::Sign(Sign::CloseSquare),
                ..
            },
            rest @ ..,
        ] => match repeated(digits, *times) {
            Some(pattern) => Ok((pattern, rest)),
            None => Err(Missed::At(tokens.len())),
        },
        [
            Token {
                part: TokenPart::Sign(Sign::OpenSquare),
                ..
            },
            ..
        ] => Err(Missed::At(tokens.len())),
        _ => Ok((
            Pattern {
                digits,
                times: None,
            },
            tokens,
        )),
    }
}

// A pattern.
fn bits(alloc: Global, tokens: &[Token]) -> Result<(Pattern, &[Token]), Missed>
    ensures exact { Gives (λ x. (x.0, toks x.1.now)) result (bits_of (toks tokens.now)) }
    ensures shorter { IfOk result (λ x. length x.1.now < length tokens.now) }
    ensures place { IfErr result (IsLeft (length tokens.now)) }
{
    let [
        Token {
            part: TokenPart::Pattern(digits),
            ..
        },
        rest @ ..,
    ] = tokens
    else {
        return Err(Missed::At(tokens.len()));
    };
    times(Name::from_bytes(alloc, digits.as_bytes())?, rest)
}

// An element, behind the name that it begins with.
fn field(alloc: Global, field: Name, tokens: &[Token]) -> Result<(CodingItem, &[Token]), Missed>
    ensures exact { Gives (λ x. (x.0, toks x.1.now)) result (field_of field (toks tokens.now)) }
    ensures shorter { IfOk result (λ x. length x.1.now ≤ length tokens.now) }
    ensures place { IfErr result (IsLeft (length tokens.now)) }
{
    let [
        Token {
            part: TokenPart::Sign(Sign::Equal),
            ..
        },
        rest @ ..,
    ] = tokens
    else {
        return Ok((CodingItem::Child(field), tokens));
    };
    let (pattern, rest) = bits(alloc, rest)?;
    Ok((CodingItem::Field(field, pattern), rest))
}

// An element of a coding.
#[tactic(auto, unfolding(crate::specs::Codings::element_of))]
fn element(alloc: Global, tokens: &[Token]) -> Result<(CodingItem, &[Token]), Missed>
    ensures exact { Gives (λ x. (x.0, toks x.1.now)) result (element_of (toks tokens.now)) }
    ensures shorter { IfOk result (λ x. length x.1.now < length tokens.now) }
    ensures place { IfErr result (IsLeft (length tokens.now)) }
{
    let [
        Token {
            part: TokenPart::Named(name),
            ..
        },
        rest @ ..,
    ] = tokens
    else {
        let (pattern, rest) = bits(alloc, tokens)?;
        return Ok((CodingItem::Bits(pattern), rest));
    };
    field(alloc, Name::from_bytes(alloc, name.as_bytes())?, rest)
}

// One or more elements up to a `}`.
fn element_list(alloc: Global, tokens: &[Token]) -> Result<(Vec<CodingItem>, &[Token]), Missed>
    ensures exact { Gives (λ x. (x.0.items, toks x.1.now)) result (element_list_of (toks tokens.now)) }
    ensures shorter { IfOk result (λ x. length x.1.now < length tokens.now) }
    ensures place { IfErr result (IsLeft (length tokens.now)) }
{
    let (first, mut rest) = element(alloc, tokens)?;
    let mut all = Vec::new(alloc);
    all.push(first)?;
    'each: while !ends(rest) {
        let (next, after) = element(alloc, rest)?;
        all.push(next)?;
        rest = after;
    }
    Ok((all, rest))
}

// A coding of elements.
#[tactic(auto, unfolding(crate::specs::Codings::items_of))]
fn items(alloc: Global, tokens: &[Token]) -> Result<(CodingPart, &[Token]), Missed>
    ensures exact { Gives (λ x. (coding_tree x.0, toks x.1.now)) result (items_of (toks tokens.now)) }
    ensures shorter { IfOk result (λ x. length x.1.now < length tokens.now) }
    ensures place { IfErr result (IsLeft (length tokens.now)) }
{
    let (all, rest) = element_list(alloc, tokens)?;
    Ok((CodingPart::Items(all), rest))
}

// A root's group, behind its `==`.
#[tactic(auto, unfolding(crate::specs::Codings::group_of))]
fn group(alloc: Global, place: Expr, tokens: &[Token]) -> Result<(CodingPart, &[Token]), Missed>
    ensures exact { Gives (λ x. (coding_tree x.0, toks x.1.now)) result (group_of (expr_tree place) (toks tokens.now)) }
    ensures shorter { IfOk result (λ x. length x.1.now ≤ length tokens.now) }
    ensures place { IfErr result (IsLeft (length tokens.now)) }
{
    let (group, rest) = name(alloc, tokens)?;
    Ok((CodingPart::Root(place, group), rest))
}

// A root, behind its place.
#[tactic(auto, unfolding(crate::specs::Codings::root_of))]
fn root(alloc: Global, place: Expr, tokens: &[Token]) -> Result<(CodingPart, &[Token]), Missed>
    ensures exact { Gives (λ x. (coding_tree x.0, toks x.1.now)) result (root_of (expr_tree place) (toks tokens.now)) }
    ensures shorter { IfOk result (λ x. length x.1.now ≤ length tokens.now) }
    ensures place { IfErr result (IsLeft (length tokens.now)) }
{
    let rest = past(tokens, Sign::EqualEqual)?;
    group(alloc, place, rest)
}

/// A coding: a root, or elements up to a `}`.
#[tactic(auto, unfolding(crate::specs::Codings::coding_of))]
pub fn coding(alloc: Global, tokens: &[Token]) -> Result<(CodingPart, &[Token]), Missed>
    ensures exact { Gives (λ x. (coding_tree x.0, toks x.1.now)) result (coding_of (toks tokens.now)) }
    ensures shorter { IfOk result (λ x. length x.1.now < length tokens.now) }
    ensures place { IfErr result (IsLeft (length tokens.now)) }
{
    match tokens {
        [
            Token {
                part: TokenPart::Reserved(Keyword::In),
                ..
            },
            Token {
                part: TokenPart::Sign(Sign::Dot),
                ..
            },
            Token {
                part: TokenPart::Named(field),
                ..
            },
            rest @ ..,
        ] => {
            let field = Name::from_bytes(alloc, field.as_bytes())?;
            root(alloc, Expr::Input(field), rest)
        }
        [
            Token {
                part: TokenPart::Named(register),
                ..
            },
            Token {
                part: TokenPart::Sign(Sign::EqualEqual),
                ..
            },
            rest @ ..,
        ] => {
            let register = Name::from_bytes(alloc, register.as_bytes())?;
            group(alloc, Expr::Named(register), rest)
        }
        _ => items(alloc, tokens),
    }
}
