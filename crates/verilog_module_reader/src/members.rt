//! Members of a module.

ghost use Rattle.std.specs.Prelude.{◌≡◌, ◌<◌, ◌≤◌, IfOk, IfErr, length};
ghost use Rattle.verilog_expression_reader.specs.Past.{placed_toks};
ghost use Rattle.verilog_expression_reader.specs.Gives.{Gives, IsLeft};
ghost use Rattle.verilog_module_reader.specs.Gives.{seen_plain, seen_member, seen_members};
ghost use Rattle.verilog_module_reader.specs.Members.{sized_of, reg_of, wire_of, past_end, block_of, lone_of, initial_of, edge_of, always_of, member_of, ends_module, members_of};

use crate::ranges::{depth, range};
use crate::settings::{setting, settings};
use lisa_engine::{ArrayItem, Item};
use lisa_words::Name;
use std::alloc::Global;
use verilog_action_reader::{action, name, plain};
use verilog_expression_reader::{Missed, past};
use verilog_places::PlacedMember;
use verilog_text::{VKeyword, VSign, VToken, VTokenPart};

// A `reg`, behind its range and name.
fn sized(
    range: u32,
    width: u32,
    name: Name,
    tokens: &[VToken],
) -> Result<(PlacedMember, &[VToken]), Missed>
    ensures exact { Gives seen_member result (sized_of (range, width) name (placed_toks tokens.now)) }
    ensures shorter { IfOk result (λ x. length x.1.now ≤ length tokens.now) }
    ensures place { IfErr result (IsLeft (length tokens.now)) }
{
    let [
        VToken {
            part: VTokenPart::Sign(VSign::Semicolon),
            ..
        },
        rest @ ..,
    ] = tokens
    else {
        let (depth, rest) = depth(tokens)?;
        let array = ArrayItem { name, width, depth };
        return Ok((PlacedMember::Array(range, array), rest));
    };
    Ok((PlacedMember::Reg(range, Item { name, width }), rest))
}

// A `reg`, behind that word.
#[tactic(auto, unfolding(crate::specs::Members::reg_of))]
fn reg(alloc: Global, tokens: &[VToken]) -> Result<(PlacedMember, &[VToken]), Missed>
    ensures exact { Gives seen_member result (reg_of (placed_toks tokens.now)) }
    ensures shorter { IfOk result (λ x. length x.1.now ≤ length tokens.now) }
    ensures place { IfErr result (IsLeft (length tokens.now)) }
{
    let ((range, width), rest) = range(tokens)?;
    let (name, rest) = name(alloc, rest)?;
    sized(range, width, name, rest)
}

// A wire, behind that word.
#[tactic(auto, unfolding(crate::specs::Members::wire_of))]
fn wire(alloc: Global, tokens: &[VToken], budget: u32) -> Result<(PlacedMember, &[VToken]), Missed>
    ensures exact { Gives seen_member result (wire_of budget (placed_toks tokens.now)) }
    ensures shorter { IfOk result (λ x. length x.1.now ≤ length tokens.now) }
    ensures place { IfErr result (IsLeft (length tokens.now)) }
{
    let ((range, width), rest) = range(tokens)?;
    let (name, rest) = name(alloc, rest)?;
    let rest = past(rest, VSign::Equal)?;
    let (value, rest) = plain(alloc, rest, budget)?;
    let rest = past(rest, VSign::Semicolon)?;
    Ok((PlacedMember::Wire(range, Item { name, width }, value), rest))
}

// The tokens behind an `end`.
fn past_end(tokens: &[VToken]) -> Result<&[VToken], Missed>
    ensures exact { Gives (λ x. placed_toks x.now) result (past_end (placed_toks tokens.now)) }
    ensures shorter { IfOk result (λ x. length x.now < length tokens.now) }
    ensures place { IfErr result (IsLeft (length tokens.now)) }
{
    match tokens {
        [
            VToken {
                part: VTokenPart::Reserved(VKeyword::End),
                ..
            },
            rest @ ..,
        ] => Ok(rest),
        _ => Err(Missed::At(tokens.len())),
    }
}

// First values, behind `initial begin`.
#[tactic(auto, unfolding(crate::specs::Members::block_of))]
fn block(alloc: Global, tokens: &[VToken]) -> Result<(PlacedMember, &[VToken]), Missed>
    ensures exact { Gives seen_member result (block_of (placed_toks tokens.now)) }
    ensures shorter { IfOk result (λ x. length x.1.now ≤ length tokens.now) }
    ensures place { IfErr result (IsLeft (length tokens.now)) }
{
    let (all, rest) = settings(alloc, tokens)?;
    let rest = past_end(rest)?;
    Ok((PlacedMember::Initial(all), rest))
}

// First values, behind `initial`.
#[tactic(auto, unfolding(crate::specs::Members::initial_of))]
fn initial(alloc: Global, tokens: &[VToken]) -> Result<(PlacedMember, &[VToken]), Missed>
    ensures exact { Gives seen_member result (initial_of (placed_toks tokens.now)) }
    ensures shorter { IfOk result (λ x. length x.1.now ≤ length tokens.now) }
    ensures place { IfErr result (IsLeft (length tokens.now)) }
{
    let [
        VToken {
            part: VTokenPart::Reserved(VKeyword::Begin),
            ..
        },
        rest @ ..,
    ] = tokens
    else {
        return lone(alloc, tokens);
    };
    block(alloc, rest)
}

// One first value as a member.
#[tactic(auto, unfolding(crate::specs::Members::lone_of))]
fn lone(alloc: Global, tokens: &[VToken]) -> Result<(PlacedMember, &[VToken]), Missed>
    ensures exact { Gives seen_member result (lone_of (placed_toks tokens.now)) }
    ensures shorter { IfOk result (λ x. length x.1.now ≤ length tokens.now) }
    ensures place { IfErr result (IsLeft (length tokens.now)) }
{
    let (first, rest) = setting(alloc, tokens)?;
    let mut all = Vec::new(alloc);
    all.push(first)?;
    Ok((PlacedMember::Initial(all), rest))
}

// The name behind `@ ( posedge`.
fn edge(alloc: Global, tokens: &[VToken]) -> Result<(Name, &[VToken]), Missed>
    ensures exact { Gives seen_plain result (edge_of (placed_toks tokens.now)) }
    ensures shorter { IfOk result (λ x. length x.1.now < length tokens.now) }
    ensures place { IfErr result (IsLeft (length tokens.now)) }
{
    match tokens {
        [
            VToken {
                part: VTokenPart::Sign(VSign::At),
                ..
            },
            VToken {
                part: VTokenPart::Sign(VSign::OpenRound),
                ..
            },
            VToken {
                part: VTokenPart::Reserved(VKeyword::PosEdge),
                ..
            },
            VToken {
                part: VTokenPart::Named(edge),
                ..
            },
            VToken {
                part: VTokenPart::Sign(VSign::CloseRound),
                ..
            },
            rest @ ..,
        ] => Ok((Name::from_bytes(alloc, edge.as_bytes())?, rest)),
        _ => Err(Missed::At(tokens.len())),
    }
}

// What is done at an edge, behind `always`.
#[tactic(auto, unfolding(crate::specs::Members::always_of))]
fn always(
    alloc: Global,
    tokens: &[VToken],
    budget: u32,
) -> Result<(PlacedMember, &[VToken]), Missed>
    ensures exact { Gives seen_member result (always_of budget (placed_toks tokens.now)) }
    ensures shorter { IfOk result (λ x. length x.1.now ≤ length tokens.now) }
    ensures place { IfErr result (IsLeft (length tokens.now)) }
{
    let (edge, rest) = edge(alloc, tokens)?;
    let (all, rest) = action(alloc, rest, budget)?;
    Ok((PlacedMember::Always(edge, all), rest))
}

// A member, by its first word.
#[tactic(auto, unfolding(crate::specs::Members::member_of))]
fn member(
    alloc: Global,
    tokens: &[VToken],
    budget: u32,
) -> Result<(PlacedMember, &[VToken]), Missed>
    ensures exact { Gives seen_member result (member_of budget (placed_toks tokens.now)) }
    ensures shorter { IfOk result (λ x. length x.1.now < length tokens.now) }
    ensures place { IfErr result (IsLeft (length tokens.now)) }
{
    let [
        VToken {
            part: VTokenPart::Reserved(keyword),
            ..
        },
        rest @ ..,
    ] = tokens
    else {
        return Err(Missed::At(tokens.len()));
    };
    match keyword {
        VKeyword::Reg => reg(alloc, rest),
        VKeyword::Wire => wire(alloc, rest, budget),
        VKeyword::Initial => initial(alloc, rest),
        VKeyword::Always => always(alloc, rest, budget),
        _ => Err(Missed::At(tokens.len())),
    }
}

// Whether `endmodule` stands in front.
fn ends_module(tokens: &[VToken]) -> bool
    ensures { result ≡ ends_module (placed_toks tokens.now) }
{
    matches!(
        tokens,
        [
            VToken {
                part: VTokenPart::Reserved(VKeyword::EndModule),
                ..
            },
            ..,
        ]
    )
}

/// The members up to `endmodule`, whose expressions and actions are at most so deep.
pub(crate) fn members(
    alloc: Global,
    tokens: &[VToken],
    budget: u32,
) -> Result<(Vec<PlacedMember>, &[VToken]), Missed>
    ensures exact { Gives seen_members result (members_of budget (placed_toks tokens.now)) }
    ensures shorter { IfOk result (λ x. length x.1.now ≤ length tokens.now) }
    ensures place { IfErr result (IsLeft (length tokens.now)) }
{
    let mut all = Vec::new(alloc);
    let mut rest = tokens;
    'each: while !ends_module(rest) {
        let (next, after) = member(alloc, rest, budget)?;
        all.push(next)?;
        rest = after;
    }
    Ok((all, rest))
}
