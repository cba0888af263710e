//! Names, fields and instances.

ghost use Rattle.std.specs.Prelude.{◌≡◌, ◌<◌, ◌≤◌, IfOk, IfErr, length};
ghost use Rattle.lisa_tree.specs.Tokens.{toks};
ghost use Rattle.lisa_behav_reader.specs.Gives.{Gives, IsLeft};
ghost use Rattle.lisa_section_reader.specs.Lists.{follows, behind_of, names_of, without, typed_of, field_of, is_typed, fields_of};

use lisa_behav_reader::{Missed, name, number, past};
use lisa_tree::{Shape, Sign, Token, TokenPart};
use lisa_words::Name;
use std::alloc::Global;

// Whether the sign stands in front of a name.
fn follows(tokens: &[Token], sign: Sign) -> bool
    ensures { result ≡ follows sign (toks tokens.now) }
{
    match tokens {
        [
            Token {
                part: TokenPart::Sign(first),
                ..
            },
            Token {
                part: TokenPart::Named(_),
                ..
            },
            ..
        ] => number(*first) == number(sign),
        _ => false,
    }
}

// A sign, and the name behind it.
#[tactic(auto, unfolding(crate::specs::Lists::behind_of))]
fn name_behind(alloc: Global, tokens: &[Token], sign: Sign) -> Result<(Name, &[Token]), Missed>
    ensures exact { Gives (λ x. (x.0, toks x.1.now)) result (behind_of sign (toks tokens.now)) }
    ensures shorter { IfOk result (λ x. length x.1.now < length tokens.now) }
    ensures place { IfErr result (IsLeft (length tokens.now)) }
{
    let rest = past(tokens, sign)?;
    name(alloc, rest)
}

/// One or more names with a sign between each two.
pub fn names(alloc: Global, tokens: &[Token], sign: Sign) -> Result<(Vec<Name>, &[Token]), Missed>
    ensures exact { Gives (λ x. (x.0.items, toks x.1.now)) result (names_of sign (toks tokens.now)) }
    ensures shorter { IfOk result (λ x. length x.1.now < length tokens.now) }
    ensures place { IfErr result (IsLeft (length tokens.now)) }
{
    let (first, mut rest) = name(alloc, tokens)?;
    let mut all = Vec::new(alloc);
    all.push(first)?;
    'each: while follows(rest, sign) {
        let (next, after) = name_behind(alloc, rest, sign)?;
        all.push(next)?;
        rest = after;
    }
    Ok((all, rest))
}

/// The tokens without a sign that may stand in front.
pub fn without(tokens: &[Token], sign: Sign) -> &[Token]
    ensures value { toks result.now ≡ without sign (toks tokens.now) }
    ensures shorter { length result.now ≤ length tokens.now }
{
    match tokens {
        [
            Token {
                part: TokenPart::Sign(first),
                ..
            },
            rest @ ..,
        ] if number(*first) == number(sign) => rest,
        _ => tokens,
    }
}

/// A type and a name.
pub fn typed(alloc: Global, tokens: &[Token]) -> Result<((Shape, Name), &[Token]), Missed>
    ensures exact { Gives (λ x. (x.0, toks x.1.now)) result (typed_of (toks tokens.now)) }
    ensures shorter { IfOk result (λ x. length x.1.now < length tokens.now) }
    ensures place { IfErr result (IsLeft (length tokens.now)) }
{
    match tokens {
        [
            Token {
                part: TokenPart::TypeWord(shape),
                ..
            },
            Token {
                part: TokenPart::Named(name),
                ..
            },
            rest @ ..,
        ] => Ok(((*shape, Name::from_bytes(alloc, name.as_bytes())?), rest)),
        _ => Err(Missed::At(tokens.len())),
    }
}

// `type name ;`
#[tactic(auto, unfolding(crate::specs::Lists::field_of))]
fn field(alloc: Global, tokens: &[Token]) -> Result<((Shape, Name), &[Token]), Missed>
    ensures exact { Gives (λ x. (x.0, toks x.1.now)) result (field_of (toks tokens.now)) }
    ensures shorter { IfOk result (λ x. length x.1.now < length tokens.now) }
    ensures place { IfErr result (IsLeft (length tokens.now)) }
{
    let (field, rest) = typed(alloc, tokens)?;
    let rest = past(rest, Sign::Semicolon)?;
    Ok((field, rest))
}

// Whether a type stands in front.
fn is_typed(tokens: &[Token]) -> bool
    ensures { result ≡ is_typed (toks tokens.now) }
{
    matches!(
        tokens,
        [
            Token {
                part: TokenPart::TypeWord(_),
                ..
            },
            ..,
        ]
    )
}

/// The fields of a boundary.
pub fn fields(alloc: Global, tokens: &[Token]) -> Result<(Vec<(Shape, Name)>, &[Token]), Missed>
    ensures exact { Gives (λ x. (x.0.items, toks x.1.now)) result (fields_of (toks tokens.now)) }
    ensures shorter { IfOk result (λ x. length x.1.now ≤ length tokens.now) }
    ensures place { IfErr result (IsLeft (length tokens.now)) }
{
    let mut all = Vec::new(alloc);
    let mut rest = tokens;
    'each: while is_typed(rest) {
        let (next, after) = field(alloc, rest)?;
        all.push(next)?;
        rest = after;
    }
    Ok((all, rest))
}
