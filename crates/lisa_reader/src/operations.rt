//! Operations, and the whole description.

ghost use Rattle.std.specs.Prelude.{◌≡◌, ◌<◌, ◌≤◌, [], IfOk, length, map};
ghost use Rattle.lisa_tree.specs.Descriptions.{operation_tree, description_tree};
ghost use Rattle.lisa_tree.specs.Tokens.{toks};
ghost use Rattle.lisa_behav_reader.specs.Gives.{Gives};
ghost use Rattle.lisa_reader.specs.Gives.{seen_operation, seen_resources};
ghost use Rattle.lisa_reader.specs.Reading.{is_alias, behind_alias, title_of, place_of, stage_of, titled_of, operation_of, is_done, operations_of, behind_resource, resource_part_of, description_of};

use crate::sections::sections;
use lisa_behav_reader::{Missed, past};
use lisa_section_reader::all_resources;
use lisa_tree::{Description, Keyword, Operation, Resource, Sign, Token, TokenPart};
use lisa_words::Name;
use std::alloc::Global;

// Whether ALIAS stands in front.
fn is_alias(tokens: &[Token]) -> bool
    ensures { result ≡ is_alias (toks tokens.now) }
{
    matches!(
        tokens,
        [
            Token {
                part: TokenPart::Reserved(Keyword::Alias),
                ..
            },
            ..,
        ]
    )
}

// The tokens behind an ALIAS that may stand in front.
fn behind_alias(tokens: &[Token]) -> &[Token]
    ensures value { toks result.now ≡ behind_alias (toks tokens.now) }
    ensures shorter { length result.now ≤ length tokens.now }
{
    match tokens {
        [
            Token {
                part: TokenPart::Reserved(Keyword::Alias),
                ..
            },
            rest @ ..,
        ] => rest,
        _ => tokens,
    }
}

// `OPERATION name`
fn title(alloc: Global, tokens: &[Token]) -> Result<(Name, &[Token]), Missed>
    ensures exact { Gives (λ x. (x.0, toks x.1.now)) result (title_of (toks tokens.now)) }
    ensures shorter { IfOk result (λ x. length x.1.now < length tokens.now) }
{
    match tokens {
        [
            Token {
                part: TokenPart::Reserved(Keyword::Operation),
                ..
            },
            Token {
                part: TokenPart::Named(name),
                ..
            },
            rest @ ..,
        ] => Ok((Name::from_bytes(alloc, name.as_bytes())?, rest)),
        _ => Err(Missed::At(tokens.len())),
    }
}

// A pipeline and a stage, behind IN.
fn place(alloc: Global, tokens: &[Token]) -> Result<(Option<(Name, Name)>, &[Token]), Missed>
    ensures exact { Gives (λ x. (x.0, toks x.1.now)) result (place_of (toks tokens.now)) }
    ensures shorter { IfOk result (λ x. length x.1.now ≤ length tokens.now) }
{
    let [
        Token {
            part: TokenPart::Named(pipe),
            ..
        },
        Token {
            part: TokenPart::Sign(Sign::Dot),
            ..
        },
        Token {
            part: TokenPart::Named(stage),
            ..
        },
        rest @ ..,
    ] = tokens
    else {
        return Err(Missed::At(tokens.len()));
    };
    let pipe = Name::from_bytes(alloc, pipe.as_bytes())?;
    let stage = Name::from_bytes(alloc, stage.as_bytes())?;
    Ok((Some((pipe, stage)), rest))
}

// The pipeline and stage of an operation, where it has one.
fn stage(alloc: Global, tokens: &[Token]) -> Result<(Option<(Name, Name)>, &[Token]), Missed>
    ensures exact { Gives (λ x. (x.0, toks x.1.now)) result (stage_of (toks tokens.now)) }
    ensures shorter { IfOk result (λ x. length x.1.now ≤ length tokens.now) }
{
    match tokens {
        [
            Token {
                part: TokenPart::Reserved(Keyword::In),
                ..
            },
            rest @ ..,
        ] => place(alloc, rest),
        _ => Ok((None, tokens)),
    }
}

// An operation behind its ALIAS, where it has one.
#[tactic(auto, unfolding(crate::specs::Reading::titled_of))]
fn titled(alloc: Global, alias: bool, tokens: &[Token]) -> Result<(Operation, &[Token]), Missed>
    ensures exact { Gives seen_operation result (titled_of alias (toks tokens.now)) }
    ensures shorter { IfOk result (λ x. length x.1.now < length tokens.now) }
{
    let (name, rest) = title(alloc, tokens)?;
    let (stage, rest) = stage(alloc, rest)?;
    let rest = past(rest, Sign::OpenBrace)?;
    let (sections, rest) = sections(alloc, rest)?;
    let rest = past(rest, Sign::CloseBrace)?;
    let operation = Operation {
        name,
        alias,
        stage,
        sections,
    };
    Ok((operation, rest))
}

// An operation.
#[tactic(auto, unfolding(crate::specs::Reading::operation_of))]
fn operation(alloc: Global, tokens: &[Token]) -> Result<(Operation, &[Token]), Missed>
    ensures exact { Gives seen_operation result (operation_of (toks tokens.now)) }
    ensures shorter { IfOk result (λ x. length x.1.now < length tokens.now) }
{
    titled(alloc, is_alias(tokens), behind_alias(tokens))
}

// Whether no tokens are left.
fn is_done(tokens: &[Token]) -> bool
    ensures { result ≡ is_done (toks tokens.now) }
{
    matches!(tokens, [])
}

// All operations to the end.
fn operations(alloc: Global, tokens: &[Token]) -> Result<Vec<Operation>, Missed>
    ensures { Gives (λ all. (map operation_tree all.items, [])) result (operations_of (toks tokens.now)) }
{
    let mut all = Vec::new(alloc);
    let mut rest = tokens;
    'each: while !is_done(rest) {
        let (next, after) = operation(alloc, rest)?;
        all.push(next)?;
        rest = after;
    }
    Ok(all)
}

// The tokens behind RESOURCE.
fn behind_resource(tokens: &[Token]) -> Result<&[Token], Missed>
    ensures exact { Gives (λ x. toks x.now) result (behind_resource (toks tokens.now)) }
    ensures shorter { IfOk result (λ x. length x.now < length tokens.now) }
{
    match tokens {
        [
            Token {
                part: TokenPart::Reserved(Keyword::Resource),
                ..
            },
            rest @ ..,
        ] => Ok(rest),
        _ => Err(Missed::At(tokens.len())),
    }
}

// The resources with their word and braces.
#[tactic(auto, unfolding(crate::specs::Reading::resource_part_of))]
fn resource_part(alloc: Global, tokens: &[Token]) -> Result<(Vec<Resource>, &[Token]), Missed>
    ensures exact { Gives seen_resources result (resource_part_of (toks tokens.now)) }
    ensures shorter { IfOk result (λ x. length x.1.now < length tokens.now) }
{
    let rest = behind_resource(tokens)?;
    let rest = past(rest, Sign::OpenBrace)?;
    let (all, rest) = all_resources(alloc, rest)?;
    let rest = past(rest, Sign::CloseBrace)?;
    Ok((all, rest))
}

/// The description that all tokens spell.
#[tactic(auto, unfolding(crate::specs::Reading::description_of))]
pub fn description(alloc: Global, tokens: &[Token]) -> Result<Description, Missed>
    ensures { Gives description_tree result (description_of (toks tokens.now)) }
{
    let (resources, rest) = resource_part(alloc, tokens)?;
    let operations = operations(alloc, rest)?;
    Ok(Description {
        resources,
        operations,
    })
}
