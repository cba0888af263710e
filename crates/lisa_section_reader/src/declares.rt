//! Declarations.

ghost use Rattle.std.specs.Prelude.{◌≡◌, ◌<◌, ◌≤◌, IfOk, IfErr, length, map};
ghost use Rattle.lisa_tree.specs.Descriptions.{declare_tree};
ghost use Rattle.lisa_tree.specs.Tokens.{toks};
ghost use Rattle.lisa_behav_reader.specs.Gives.{Gives, IsLeft};
ghost use Rattle.lisa_section_reader.specs.Declares.{meaning_of, instance_of, next_instance_of, has_comma, instance_list_of, group_of, instances_of, labels_of, references_of, declare_of, declares_of};

use crate::lists::names;
use crate::resources::ends;
use lisa_behav_reader::{Missed, name, past};
use lisa_tree::{Declare, Keyword, Sign, Token, TokenPart};
use lisa_words::Name;
use std::alloc::Global;

// What an instance stands for, behind its name.
fn meaning(
    alloc: Global,
    instance: Name,
    tokens: &[Token],
) -> Result<((Name, Name), &[Token]), Missed>
    ensures exact { Gives (λ x. (x.0, toks x.1.now)) result (meaning_of instance (toks tokens.now)) }
    ensures shorter { IfOk result (λ x. length x.1.now ≤ length tokens.now) }
    ensures place { IfErr result (IsLeft (length tokens.now)) }
{
    match tokens {
        [
            Token {
                part: TokenPart::Sign(Sign::Equal),
                ..
            },
            Token {
                part: TokenPart::Named(operation),
                ..
            },
            rest @ ..,
        ] => {
            let operation = Name::from_bytes(alloc, operation.as_bytes())?;
            Ok(((instance, operation), rest))
        }
        _ => {
            let operation = Name::from_bytes(alloc, instance.as_bytes())?;
            Ok(((instance, operation), tokens))
        }
    }
}

// An instance, and what it stands for.
#[tactic(auto, unfolding(crate::specs::Declares::instance_of))]
fn instance(alloc: Global, tokens: &[Token]) -> Result<((Name, Name), &[Token]), Missed>
    ensures exact { Gives (λ x. (x.0, toks x.1.now)) result (instance_of (toks tokens.now)) }
    ensures shorter { IfOk result (λ x. length x.1.now < length tokens.now) }
    ensures place { IfErr result (IsLeft (length tokens.now)) }
{
    let (instance, rest) = name(alloc, tokens)?;
    meaning(alloc, instance, rest)
}

// A further instance, behind its comma.
#[tactic(auto, unfolding(crate::specs::Declares::next_instance_of))]
fn next_instance(alloc: Global, tokens: &[Token]) -> Result<((Name, Name), &[Token]), Missed>
    ensures exact { Gives (λ x. (x.0, toks x.1.now)) result (next_instance_of (toks tokens.now)) }
    ensures shorter { IfOk result (λ x. length x.1.now < length tokens.now) }
    ensures place { IfErr result (IsLeft (length tokens.now)) }
{
    let rest = past(tokens, Sign::Comma)?;
    instance(alloc, rest)
}

// Whether a comma stands in front.
fn has_comma(tokens: &[Token]) -> bool
    ensures { result ≡ has_comma (toks tokens.now) }
{
    matches!(
        tokens,
        [
            Token {
                part: TokenPart::Sign(Sign::Comma),
                ..
            },
            ..,
        ]
    )
}

// One or more instances with commas between them.
fn instance_list(alloc: Global, tokens: &[Token]) -> Result<(Vec<(Name, Name)>, &[Token]), Missed>
    ensures exact { Gives (λ x. (x.0.items, toks x.1.now)) result (instance_list_of (toks tokens.now)) }
    ensures shorter { IfOk result (λ x. length x.1.now < length tokens.now) }
    ensures place { IfErr result (IsLeft (length tokens.now)) }
{
    let (first, mut rest) = instance(alloc, tokens)?;
    let mut all = Vec::new(alloc);
    all.push(first)?;
    'each: while has_comma(rest) {
        let (next, after) = next_instance(alloc, rest)?;
        all.push(next)?;
        rest = after;
    }
    Ok((all, rest))
}

// A group, behind GROUP.
#[tactic(auto, unfolding(crate::specs::Declares::group_of))]
fn group(alloc: Global, tokens: &[Token]) -> Result<(Declare, &[Token]), Missed>
    ensures exact { Gives (λ x. (declare_tree x.0, toks x.1.now)) result (group_of (toks tokens.now)) }
    ensures shorter { IfOk result (λ x. length x.1.now ≤ length tokens.now) }
    ensures place { IfErr result (IsLeft (length tokens.now)) }
{
    let (group, rest) = names(alloc, tokens, Sign::Comma)?;
    let rest = past(rest, Sign::Equal)?;
    let rest = past(rest, Sign::OpenBrace)?;
    let (alternatives, rest) = names(alloc, rest, Sign::OrOr)?;
    let rest = past(rest, Sign::CloseBrace)?;
    let rest = past(rest, Sign::Semicolon)?;
    Ok((Declare::Group(group, alternatives), rest))
}

// Instances, behind INSTANCE.
#[tactic(auto, unfolding(crate::specs::Declares::instances_of))]
fn instances(alloc: Global, tokens: &[Token]) -> Result<(Declare, &[Token]), Missed>
    ensures exact { Gives (λ x. (declare_tree x.0, toks x.1.now)) result (instances_of (toks tokens.now)) }
    ensures shorter { IfOk result (λ x. length x.1.now ≤ length tokens.now) }
    ensures place { IfErr result (IsLeft (length tokens.now)) }
{
    let (all, rest) = instance_list(alloc, tokens)?;
    let rest = past(rest, Sign::Semicolon)?;
    Ok((Declare::Instance(all), rest))
}

// Labels, behind LABEL.
#[tactic(auto, unfolding(crate::specs::Declares::labels_of))]
fn labels(alloc: Global, tokens: &[Token]) -> Result<(Declare, &[Token]), Missed>
    ensures exact { Gives (λ x. (declare_tree x.0, toks x.1.now)) result (labels_of (toks tokens.now)) }
    ensures shorter { IfOk result (λ x. length x.1.now ≤ length tokens.now) }
    ensures place { IfErr result (IsLeft (length tokens.now)) }
{
    let (all, rest) = names(alloc, tokens, Sign::Comma)?;
    let rest = past(rest, Sign::Semicolon)?;
    Ok((Declare::Label(all), rest))
}

// References, behind REFERENCE.
#[tactic(auto, unfolding(crate::specs::Declares::references_of))]
fn references(alloc: Global, tokens: &[Token]) -> Result<(Declare, &[Token]), Missed>
    ensures exact { Gives (λ x. (declare_tree x.0, toks x.1.now)) result (references_of (toks tokens.now)) }
    ensures shorter { IfOk result (λ x. length x.1.now ≤ length tokens.now) }
    ensures place { IfErr result (IsLeft (length tokens.now)) }
{
    let (all, rest) = names(alloc, tokens, Sign::Comma)?;
    let rest = past(rest, Sign::Semicolon)?;
    Ok((Declare::Reference(all), rest))
}

// A declaration.
#[tactic(auto, unfolding(crate::specs::Declares::declare_of))]
fn declare(alloc: Global, tokens: &[Token]) -> Result<(Declare, &[Token]), Missed>
    ensures exact { Gives (λ x. (declare_tree x.0, toks x.1.now)) result (declare_of (toks tokens.now)) }
    ensures shorter { IfOk result (λ x. length x.1.now < length tokens.now) }
    ensures place { IfErr result (IsLeft (length tokens.now)) }
{
    let [
        Token {
            part: TokenPart::Reserved(keyword),
            ..
        },
        rest @ ..,
    ] = tokens
    else {
        return Err(Missed::At(tokens.len()));
    };
    match keyword {
        Keyword::Group => group(alloc, rest),
        Keyword::Instance => instances(alloc, rest),
        Keyword::Label => labels(alloc, rest),
        Keyword::Reference => references(alloc, rest),
        _ => Err(Missed::At(tokens.len())),
    }
}

/// The declarations up to a `}`.
pub fn all_declares(alloc: Global, tokens: &[Token]) -> Result<(Vec<Declare>, &[Token]), Missed>
    ensures exact { Gives (λ x. (map declare_tree x.0.items, toks x.1.now)) result (declares_of (toks tokens.now)) }
    ensures shorter { IfOk result (λ x. length x.1.now ≤ length tokens.now) }
    ensures place { IfErr result (IsLeft (length tokens.now)) }
{
    let mut all = Vec::new(alloc);
    let mut rest = tokens;
    'each: while !ends(rest) {
        let (next, after) = declare(alloc, rest)?;
        all.push(next)?;
        rest = after;
    }
    Ok((all, rest))
}
