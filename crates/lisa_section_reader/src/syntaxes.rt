//! Syntaxes.

ghost use Rattle.std.specs.Prelude.{◌≡◌, ◌<◌, ◌≤◌, IfOk, IfErr, length};
ghost use Rattle.lisa_tree.specs.Tokens.{toks};
ghost use Rattle.lisa_behav_reader.specs.Gives.{Gives, IsLeft};
ghost use Rattle.lisa_section_reader.specs.Syntaxes.{format_of, number_format_of, label_of, part_of, alone_of, syntax_item_of, syntax_of};

use crate::resources::ends;
use lisa_behav_reader::Missed;
use lisa_tree::{Format, Sign, SyntaxItem, SyntaxPart, Token, TokenPart};
use lisa_words::Name;
use std::alloc::Global;

// The format that a sign stands for.
fn format(sign: Sign) -> Option<Format>
    ensures { result ≡ format_of sign }
{
    match sign {
        Sign::DecimalFormat => Some(Format::Decimal),
        Sign::SignedFormat => Some(Format::SignedDecimal),
        Sign::HexadecimalFormat => Some(Format::Hexadecimal),
        _ => None,
    }
}

// A number, behind the `=` of its label.
fn number(label: Name, tokens: &[Token]) -> Result<(SyntaxPart, &[Token]), Missed>
    ensures exact { Gives (λ x. (x.0, toks x.1.now)) result (number_format_of label (toks tokens.now)) }
    ensures shorter { IfOk result (λ x. length x.1.now ≤ length tokens.now) }
    ensures place { IfErr result (IsLeft (length tokens.now)) }
{
    let [
        Token {
            part: TokenPart::Sign(sign),
            ..
        },
        rest @ ..,
    ] = tokens
    else {
        return Err(Missed::At(tokens.len()));
    };
    match format(*sign) {
        Some(format) => Ok((SyntaxPart::Number(label, format), rest)),
        None => Err(Missed::At(tokens.len())),
    }
}

// A label's number or a child, behind its name.
fn labelled(name: Name, tokens: &[Token]) -> Result<(SyntaxPart, &[Token]), Missed>
    ensures exact { Gives (λ x. (x.0, toks x.1.now)) result (label_of name (toks tokens.now)) }
    ensures shorter { IfOk result (λ x. length x.1.now ≤ length tokens.now) }
    ensures place { IfErr result (IsLeft (length tokens.now)) }
{
    let [
        Token {
            part: TokenPart::Sign(Sign::Equal),
            ..
        },
        rest @ ..,
    ] = tokens
    else {
        return Ok((SyntaxPart::Child(name), tokens));
    };
    number(name, rest)
}

// What stands in an instruction's text.
#[tactic(auto, unfolding(crate::specs::Syntaxes::part_of))]
fn part(alloc: Global, tokens: &[Token]) -> Result<(SyntaxPart, &[Token]), Missed>
    ensures exact { Gives (λ x. (x.0, toks x.1.now)) result (part_of (toks tokens.now)) }
    ensures shorter { IfOk result (λ x. length x.1.now < length tokens.now) }
    ensures place { IfErr result (IsLeft (length tokens.now)) }
{
    match tokens {
        [
            Token {
                part: TokenPart::Text(text),
                ..
            },
            rest @ ..,
        ] => {
            let text = Name::from_bytes(alloc, text.as_bytes())?;
            Ok((SyntaxPart::Literal(text), rest))
        }
        [
            Token {
                part: TokenPart::Named(name),
                ..
            },
            rest @ ..,
        ] => labelled(Name::from_bytes(alloc, name.as_bytes())?, rest),
        _ => Err(Missed::At(tokens.len())),
    }
}

// An element without what joins it.
#[tactic(auto, unfolding(crate::specs::Syntaxes::alone_of))]
fn alone(alloc: Global, joined: bool, tokens: &[Token]) -> Result<(SyntaxItem, &[Token]), Missed>
    ensures exact { Gives (λ x. (x.0, toks x.1.now)) result (alone_of joined (toks tokens.now)) }
    ensures shorter { IfOk result (λ x. length x.1.now < length tokens.now) }
    ensures place { IfErr result (IsLeft (length tokens.now)) }
{
    let (part, rest) = part(alloc, tokens)?;
    Ok((SyntaxItem { joined, part }, rest))
}

// An element behind the first one.
#[tactic(auto, unfolding(crate::specs::Syntaxes::syntax_item_of))]
fn item(alloc: Global, tokens: &[Token]) -> Result<(SyntaxItem, &[Token]), Missed>
    ensures exact { Gives (λ x. (x.0, toks x.1.now)) result (syntax_item_of (toks tokens.now)) }
    ensures shorter { IfOk result (λ x. length x.1.now < length tokens.now) }
    ensures place { IfErr result (IsLeft (length tokens.now)) }
{
    let [
        Token {
            part: TokenPart::Sign(Sign::Tilde),
            ..
        },
        rest @ ..,
    ] = tokens
    else {
        return alone(alloc, false, tokens);
    };
    alone(alloc, true, rest)
}

/// A syntax up to a `}`: one or more elements, the first of them not joined to anything.
pub fn syntax(alloc: Global, tokens: &[Token]) -> Result<(Vec<SyntaxItem>, &[Token]), Missed>
    ensures exact { Gives (λ x. (x.0.items, toks x.1.now)) result (syntax_of (toks tokens.now)) }
    ensures shorter { IfOk result (λ x. length x.1.now < length tokens.now) }
    ensures place { IfErr result (IsLeft (length tokens.now)) }
{
    let (first, mut rest) = alone(alloc, false, tokens)?;
    let mut all = Vec::new(alloc);
    all.push(first)?;
    'each: while !ends(rest) {
        let (next, after) = item(alloc, rest)?;
        all.push(next)?;
        rest = after;
    }
    Ok((all, rest))
}
