//! Sections of an operation.

ghost use Rattle.std.specs.Prelude.{◌≡◌, ◌<◌, ◌≤◌, ◌++◌, [], IfOk, IfErr, length, map, option_map};
ghost use Rattle.lisa_tree.specs.Descriptions.{section_tree};
ghost use Rattle.lisa_tree.specs.Tokens.{toks};
ghost use Rattle.lisa_behav_reader.specs.Gives.{Gives};
ghost use Rattle.lisa_behav_reader.specs.declared.misses.Missed.TheVariants.{NoMemory as NoRoom};
ghost use Rattle.lisa_reader.specs.Gives.{seen_section, seen_part, seen_sections};
ghost use Rattle.lisa_reader.specs.Reading.{declares_in, coding_in, syntax_in, behavior_in, expression_in, activation_in, inside_of, kept_of, skipped_of, block_of, part_of, before, sections_of};

use crate::skipping::skipped;
use lisa_activation_reader::activation;
use lisa_behav_reader::{Measured, Missed, expression, past, statements};
use lisa_section_reader::{all_declares, coding, ends, syntax};
use lisa_tree::{Keyword, Section, Sign, Token, TokenPart};
use std::alloc::Global;

/// How deep an expression, statement or item may nest.
const DEPTH_LIMIT: u32 = 128;

#[tactic(auto, unfolding(crate::specs::Reading::declares_in))]
fn declares_in(alloc: Global, tokens: &[Token]) -> Result<(Section, &[Token]), Missed>
    ensures exact { Gives seen_section result (declares_in (toks tokens.now)) }
    ensures shorter { IfOk result (λ x. length x.1.now ≤ length tokens.now) }
{
    let (all, rest) = all_declares(alloc, tokens)?;
    Ok((Section::Declare(all), rest))
}

#[tactic(auto, unfolding(crate::specs::Reading::coding_in))]
fn coding_in(alloc: Global, tokens: &[Token]) -> Result<(Section, &[Token]), Missed>
    ensures exact { Gives seen_section result (coding_in (toks tokens.now)) }
    ensures shorter { IfOk result (λ x. length x.1.now ≤ length tokens.now) }
{
    let (part, rest) = coding(alloc, tokens)?;
    Ok((Section::Coding(part), rest))
}

#[tactic(auto, unfolding(crate::specs::Reading::syntax_in))]
fn syntax_in(alloc: Global, tokens: &[Token]) -> Result<(Section, &[Token]), Missed>
    ensures exact { Gives seen_section result (syntax_in (toks tokens.now)) }
    ensures shorter { IfOk result (λ x. length x.1.now ≤ length tokens.now) }
{
    let (items, rest) = syntax(alloc, tokens)?;
    Ok((Section::Syntax(items), rest))
}

#[tactic(auto, unfolding(crate::specs::Reading::behavior_in))]
fn behavior_in(alloc: Global, tokens: &[Token]) -> Result<(Section, &[Token]), Missed>
    ensures exact { Gives seen_section result (behavior_in (toks tokens.now)) }
    ensures shorter { IfOk result (λ x. length x.1.now ≤ length tokens.now) }
{
    let (all, rest) = statements(alloc, tokens, DEPTH_LIMIT)?;
    Ok((Section::Behavior(all), rest))
}

#[tactic(auto, unfolding(crate::specs::Reading::expression_in))]
fn expression_in(alloc: Global, tokens: &[Token]) -> Result<(Section, &[Token]), Missed>
    ensures exact { Gives seen_section result (expression_in (toks tokens.now)) }
    ensures shorter { IfOk result (λ x. length x.1.now ≤ length tokens.now) }
{
    let (Measured { tree, .. }, rest) = expression(alloc, tokens, DEPTH_LIMIT)?;
    Ok((Section::Expression(tree), rest))
}

#[tactic(auto, unfolding(crate::specs::Reading::activation_in))]
fn activation_in(alloc: Global, tokens: &[Token]) -> Result<(Section, &[Token]), Missed>
    ensures exact { Gives seen_section result (activation_in (toks tokens.now)) }
    ensures shorter { IfOk result (λ x. length x.1.now ≤ length tokens.now) }
{
    let (all, rest) = activation(alloc, tokens, DEPTH_LIMIT)?;
    Ok((Section::Activation(all), rest))
}

// What stands between the braces of the section that this word begins.
fn inside(alloc: Global, keyword: Keyword, tokens: &[Token]) -> Result<(Section, &[Token]), Missed>
    ensures exact { Gives seen_section result (inside_of keyword (toks tokens.now)) }
    ensures shorter { IfOk result (λ x. length x.1.now ≤ length tokens.now) }
{
    match keyword {
        Keyword::Declare => declares_in(alloc, tokens),
        Keyword::Coding => coding_in(alloc, tokens),
        Keyword::Syntax => syntax_in(alloc, tokens),
        Keyword::Behavior => behavior_in(alloc, tokens),
        Keyword::Expression => expression_in(alloc, tokens),
        Keyword::Activation => activation_in(alloc, tokens),
        _ => Err(Missed::At(tokens.len())),
    }
}

// A section that is kept, behind its `{`.
#[tactic(auto, unfolding(crate::specs::Reading::kept_of))]
fn kept(
    alloc: Global,
    keyword: Keyword,
    tokens: &[Token],
) -> Result<(Option<Section>, &[Token]), Missed>
    ensures exact { Gives seen_part result (kept_of keyword (toks tokens.now)) }
    ensures shorter { IfOk result (λ x. length x.1.now < length tokens.now) }
{
    let (section, rest) = inside(alloc, keyword, tokens)?;
    let rest = past(rest, Sign::CloseBrace)?;
    Ok((Some(section), rest))
}

// A section that is skipped, behind its `{`.
#[tactic(auto, unfolding(crate::specs::Reading::skipped_of))]
fn nothing(tokens: &[Token]) -> Result<(Option<Section>, &[Token]), Missed>
    ensures exact { Gives seen_part result (skipped_of (toks tokens.now)) }
    ensures shorter { IfOk result (λ x. length x.1.now < length tokens.now) }
{
    let rest = skipped(tokens)?;
    Ok((None, rest))
}

// What stands behind the word of a section and its `{`.
fn block(
    alloc: Global,
    keyword: Keyword,
    tokens: &[Token],
) -> Result<(Option<Section>, &[Token]), Missed>
    ensures exact { Gives seen_part result (block_of keyword (toks tokens.now)) }
    ensures shorter { IfOk result (λ x. length x.1.now < length tokens.now) }
{
    match keyword {
        Keyword::Semantics => nothing(tokens),
        _ => kept(alloc, keyword, tokens),
    }
}

// A section, or nothing where it is skipped.
#[tactic(auto, unfolding(crate::specs::Reading::part_of))]
fn part(alloc: Global, tokens: &[Token]) -> Result<(Option<Section>, &[Token]), Missed>
    ensures exact { Gives seen_part result (part_of (toks tokens.now)) }
    ensures shorter { IfOk result (λ x. length x.1.now < length tokens.now) }
{
    match tokens {
        [
            Token {
                part: TokenPart::Reserved(keyword),
                ..
            },
            Token {
                part: TokenPart::Sign(Sign::OpenBrace),
                ..
            },
            rest @ ..,
        ] => block(alloc, *keyword, rest),
        _ => Err(Missed::At(tokens.len())),
    }
}

// Puts a section behind the others, where there is one.
fn keep(all: &mut Vec<Section>, part: Option<Section>) -> Result<(), Missed>
    ensures kept { IfOk result (λ _. map section_tree all.new.items ≡ map section_tree all.old.items ++ before (option_map section_tree part) []) }
    ensures fault { IfErr result (λ e. e ≡ NoRoom) }
{
    if let Some(section) = part {
        all.push(section)?;
    }
    Ok(())
}

/// The sections up to a `}`.
pub fn sections(alloc: Global, tokens: &[Token]) -> Result<(Vec<Section>, &[Token]), Missed>
    ensures exact { Gives seen_sections result (sections_of (toks tokens.now)) }
    ensures shorter { IfOk result (λ x. length x.1.now ≤ length tokens.now) }
{
    let mut all = Vec::new(alloc);
    let mut rest = tokens;
    'each: while !ends(rest) {
        let (next, after) = part(alloc, rest)?;
        keep(&mut all, next)?;
        rest = after;
    }
    Ok((all, rest))
}
