//! Resources.

ghost use Rattle.std.specs.Prelude.{◌≡◌, ◌<◌, ◌≤◌, IfOk, IfErr, length, map};
ghost use Rattle.lisa_tree.specs.Descriptions.{resource_tree};
ghost use Rattle.lisa_tree.specs.Tokens.{toks};
ghost use Rattle.lisa_behav_reader.specs.Gives.{Gives, IsLeft};
ghost use Rattle.lisa_section_reader.specs.Resources.{depth_of, sized_of, register_of, register_word_of, word_of, clocked_of, memory_of, pin_of, pipeline_of, in_of, boundary_of, resource_of, ends, resources_of};

use crate::lists::{fields, names, typed, without};
use lisa_behav_reader::{Missed, name, past};
use lisa_tree::{Keyword, MemoryWord, RegisterWord, Resource, Shape, Sign, Token, TokenPart};
use lisa_words::Name;
use std::alloc::Global;

/// Whether a `}` stands in front.
pub fn ends(tokens: &[Token]) -> bool
    ensures { result ≡ ends (toks tokens.now) }
{
    matches!(
        tokens,
        [
            Token {
                part: TokenPart::Sign(Sign::CloseBrace),
                ..
            },
            ..,
        ]
    )
}

// `[ number ] ;`
fn depth(tokens: &[Token]) -> Result<(u64, &[Token]), Missed>
    ensures exact { Gives (λ x. (x.0, toks x.1.now)) result (depth_of (toks tokens.now)) }
    ensures shorter { IfOk result (λ x. length x.1.now < length tokens.now) }
    ensures place { IfErr result (IsLeft (length tokens.now)) }
{
    match tokens {
        [
            Token {
                part: TokenPart::Sign(Sign::OpenSquare),
                ..
            },
            Token {
                part: TokenPart::Number(depth, _),
                ..
            },
            Token {
                part: TokenPart::Sign(Sign::CloseSquare),
                ..
            },
            Token {
                part: TokenPart::Sign(Sign::Semicolon),
                ..
            },
            rest @ ..,
        ] => Ok((*depth, rest)),
        _ => Err(Missed::At(tokens.len())),
    }
}

// A register, behind its type and name.
fn sized(
    word: RegisterWord,
    shape: Shape,
    register: Name,
    tokens: &[Token],
) -> Result<(Resource, &[Token]), Missed>
    ensures exact { Gives (λ x. (resource_tree x.0, toks x.1.now)) result (sized_of word (shape, register) (toks tokens.now)) }
    ensures shorter { IfOk result (λ x. length x.1.now ≤ length tokens.now) }
    ensures place { IfErr result (IsLeft (length tokens.now)) }
{
    let [
        Token {
            part: TokenPart::Sign(Sign::Semicolon),
            ..
        },
        rest @ ..,
    ] = tokens
    else {
        let (depth, rest) = depth(tokens)?;
        return Ok((Resource::Register(word, shape, register, Some(depth)), rest));
    };
    Ok((Resource::Register(word, shape, register, None), rest))
}

// A register, behind its word.
#[tactic(auto, unfolding(crate::specs::Resources::register_of))]
fn register(
    alloc: Global,
    word: RegisterWord,
    tokens: &[Token],
) -> Result<(Resource, &[Token]), Missed>
    ensures exact { Gives (λ x. (resource_tree x.0, toks x.1.now)) result (register_of word (toks tokens.now)) }
    ensures shorter { IfOk result (λ x. length x.1.now ≤ length tokens.now) }
    ensures place { IfErr result (IsLeft (length tokens.now)) }
{
    let ((shape, register), rest) = typed(alloc, tokens)?;
    sized(word, shape, register, rest)
}

// The word for a register that a reserved word is.
fn register_word(keyword: Keyword) -> Option<RegisterWord>
    ensures { result ≡ register_word_of keyword }
{
    match keyword {
        Keyword::Register => Some(RegisterWord::Register),
        Keyword::ProgramCounter => Some(RegisterWord::ProgramCounter),
        Keyword::ControlRegister => Some(RegisterWord::ControlRegister),
        _ => None,
    }
}

// A word for a register.
fn word(tokens: &[Token]) -> Result<(RegisterWord, &[Token]), Missed>
    ensures exact { Gives (λ x. (x.0, toks x.1.now)) result (word_of (toks tokens.now)) }
    ensures shorter { IfOk result (λ x. length x.1.now < length tokens.now) }
    ensures place { IfErr result (IsLeft (length tokens.now)) }
{
    let [
        Token {
            part: TokenPart::Reserved(keyword),
            ..
        },
        rest @ ..,
    ] = tokens
    else {
        return Err(Missed::At(tokens.len()));
    };
    match register_word(*keyword) {
        Some(word) => Ok((word, rest)),
        None => Err(Missed::At(tokens.len())),
    }
}

// A clocked register, behind CLOCKED.
#[tactic(auto, unfolding(crate::specs::Resources::clocked_of))]
fn clocked(alloc: Global, tokens: &[Token]) -> Result<(Resource, &[Token]), Missed>
    ensures exact { Gives (λ x. (resource_tree x.0, toks x.1.now)) result (clocked_of (toks tokens.now)) }
    ensures shorter { IfOk result (λ x. length x.1.now ≤ length tokens.now) }
    ensures place { IfErr result (IsLeft (length tokens.now)) }
{
    let (word, rest) = word(tokens)?;
    let ((shape, register), rest) = typed(alloc, rest)?;
    let rest = past(rest, Sign::Semicolon)?;
    Ok((Resource::Clocked(word, shape, register), rest))
}

// A memory, behind its word.
#[tactic(auto, unfolding(crate::specs::Resources::memory_of))]
fn memory(alloc: Global, word: MemoryWord, tokens: &[Token]) -> Result<(Resource, &[Token]), Missed>
    ensures exact { Gives (λ x. (resource_tree x.0, toks x.1.now)) result (memory_of word (toks tokens.now)) }
    ensures shorter { IfOk result (λ x. length x.1.now ≤ length tokens.now) }
    ensures place { IfErr result (IsLeft (length tokens.now)) }
{
    let ((shape, memory), rest) = typed(alloc, tokens)?;
    let (depth, rest) = depth(rest)?;
    Ok((Resource::Memory(word, shape, memory, depth), rest))
}

// A pin, behind PIN.
#[tactic(auto, unfolding(crate::specs::Resources::pin_of))]
fn pin(alloc: Global, tokens: &[Token]) -> Result<(Resource, &[Token]), Missed>
    ensures exact { Gives (λ x. (resource_tree x.0, toks x.1.now)) result (pin_of (toks tokens.now)) }
    ensures shorter { IfOk result (λ x. length x.1.now ≤ length tokens.now) }
    ensures place { IfErr result (IsLeft (length tokens.now)) }
{
    let ((shape, pin), rest) = typed(alloc, tokens)?;
    let rest = past(rest, Sign::Semicolon)?;
    Ok((Resource::Pin(shape, pin), rest))
}

// The pipeline, behind PIPELINE.
#[tactic(auto, unfolding(crate::specs::Resources::pipeline_of))]
fn pipeline(alloc: Global, tokens: &[Token]) -> Result<(Resource, &[Token]), Missed>
    ensures exact { Gives (λ x. (resource_tree x.0, toks x.1.now)) result (pipeline_of (toks tokens.now)) }
    ensures shorter { IfOk result (λ x. length x.1.now ≤ length tokens.now) }
    ensures place { IfErr result (IsLeft (length tokens.now)) }
{
    let (pipe, rest) = name(alloc, tokens)?;
    let rest = past(rest, Sign::Equal)?;
    let rest = past(rest, Sign::OpenBrace)?;
    let (stages, rest) = names(alloc, rest, Sign::Semicolon)?;
    let rest = past(without(rest, Sign::Semicolon), Sign::CloseBrace)?;
    let rest = past(rest, Sign::Semicolon)?;
    Ok((Resource::Pipeline(pipe, stages), rest))
}

// `IN pipeline`
fn inside(alloc: Global, tokens: &[Token]) -> Result<(Name, &[Token]), Missed>
    ensures exact { Gives (λ x. (x.0, toks x.1.now)) result (in_of (toks tokens.now)) }
    ensures shorter { IfOk result (λ x. length x.1.now < length tokens.now) }
    ensures place { IfErr result (IsLeft (length tokens.now)) }
{
    match tokens {
        [
            Token {
                part: TokenPart::Reserved(Keyword::In),
                ..
            },
            Token {
                part: TokenPart::Named(pipe),
                ..
            },
            rest @ ..,
        ] => Ok((Name::from_bytes(alloc, pipe.as_bytes())?, rest)),
        _ => Err(Missed::At(tokens.len())),
    }
}

// The fields of the boundaries, behind PIPELINE_REGISTER.
#[tactic(auto, unfolding(crate::specs::Resources::boundary_of))]
fn boundary(alloc: Global, tokens: &[Token]) -> Result<(Resource, &[Token]), Missed>
    ensures exact { Gives (λ x. (resource_tree x.0, toks x.1.now)) result (boundary_of (toks tokens.now)) }
    ensures shorter { IfOk result (λ x. length x.1.now ≤ length tokens.now) }
    ensures place { IfErr result (IsLeft (length tokens.now)) }
{
    let (pipe, rest) = inside(alloc, tokens)?;
    let rest = past(rest, Sign::OpenBrace)?;
    let (fields, rest) = fields(alloc, rest)?;
    let rest = past(rest, Sign::CloseBrace)?;
    Ok((
        Resource::Fields(pipe, fields),
        without(rest, Sign::Semicolon),
    ))
}

// A resource.
#[tactic(auto, unfolding(crate::specs::Resources::resource_of))]
fn resource(alloc: Global, tokens: &[Token]) -> Result<(Resource, &[Token]), Missed>
    ensures exact { Gives (λ x. (resource_tree x.0, toks x.1.now)) result (resource_of (toks tokens.now)) }
    ensures shorter { IfOk result (λ x. length x.1.now < length tokens.now) }
    ensures place { IfErr result (IsLeft (length tokens.now)) }
{
    let [
        Token {
            part: TokenPart::Reserved(keyword),
            ..
        },
        rest @ ..,
    ] = tokens
    else {
        return Err(Missed::At(tokens.len()));
    };
    match keyword {
        Keyword::Register => register(alloc, RegisterWord::Register, rest),
        Keyword::ProgramCounter => register(alloc, RegisterWord::ProgramCounter, rest),
        Keyword::ControlRegister => register(alloc, RegisterWord::ControlRegister, rest),
        Keyword::Clocked => clocked(alloc, rest),
        Keyword::Memory => memory(alloc, MemoryWord::Memory, rest),
        Keyword::DataMemory => memory(alloc, MemoryWord::DataMemory, rest),
        Keyword::ProgramMemory => memory(alloc, MemoryWord::ProgramMemory, rest),
        Keyword::Pin => pin(alloc, rest),
        Keyword::Pipeline => pipeline(alloc, rest),
        Keyword::PipelineRegister => boundary(alloc, rest),
        _ => Err(Missed::At(tokens.len())),
    }
}

/// The resources up to a `}`.
pub fn all_resources(alloc: Global, tokens: &[Token]) -> Result<(Vec<Resource>, &[Token]), Missed>
    ensures exact { Gives (λ x. (map resource_tree x.0.items, toks x.1.now)) result (resources_of (toks tokens.now)) }
    ensures shorter { IfOk result (λ x. length x.1.now ≤ length tokens.now) }
    ensures place { IfErr result (IsLeft (length tokens.now)) }
{
    let mut all = Vec::new(alloc);
    let mut rest = tokens;
    'each: while !ends(rest) {
        let (next, after) = resource(alloc, rest)?;
        all.push(next)?;
        rest = after;
    }
    Ok((all, rest))
}
