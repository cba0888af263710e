//! Inputs.

ghost use Rattle.std.specs.Prelude.{◌≡◌, ◌<◌, ◌≤◌, IfOk, IfErr, length};
ghost use Rattle.verilog_expression_reader.specs.Past.{placed_toks};
ghost use Rattle.verilog_expression_reader.specs.Gives.{Gives, IsLeft};
ghost use Rattle.verilog_module_reader.specs.Gives.{seen_plain, seen_list};
ghost use Rattle.verilog_module_reader.specs.Parts.{behind_input, input_of, has_comma, inputs_of};

use crate::ranges::{range, without_wire};
use lisa_engine::Item;
use std::alloc::Global;
use verilog_action_reader::name;
use verilog_expression_reader::Missed;
use verilog_places::PlacedInput;
use verilog_text::{VKeyword, VSign, VToken, VTokenPart};

// An input, behind `, input`.
#[tactic(auto, unfolding(crate::specs::Parts::behind_input))]
fn behind_input(alloc: Global, tokens: &[VToken]) -> Result<(PlacedInput, &[VToken]), Missed>
    ensures exact { Gives seen_plain result (behind_input (placed_toks tokens.now)) }
    ensures shorter { IfOk result (λ x. length x.1.now ≤ length tokens.now) }
    ensures place { IfErr result (IsLeft (length tokens.now)) }
{
    let ((range, width), rest) = range(without_wire(tokens))?;
    let (name, rest) = name(alloc, rest)?;
    let item = Item { name, width };
    Ok((PlacedInput { range, item }, rest))
}

// An input, with the comma in front of it.
fn input(alloc: Global, tokens: &[VToken]) -> Result<(PlacedInput, &[VToken]), Missed>
    ensures exact { Gives seen_plain result (input_of (placed_toks tokens.now)) }
    ensures shorter { IfOk result (λ x. length x.1.now < length tokens.now) }
    ensures place { IfErr result (IsLeft (length tokens.now)) }
{
    match tokens {
        [
            VToken {
                part: VTokenPart::Sign(VSign::Comma),
                ..
            },
            VToken {
                part: VTokenPart::Reserved(VKeyword::Input),
                ..
            },
            rest @ ..,
        ] => behind_input(alloc, rest),
        _ => Err(Missed::At(tokens.len())),
    }
}

// Whether a comma stands in front.
fn has_comma(tokens: &[VToken]) -> bool
    ensures { result ≡ has_comma (placed_toks tokens.now) }
{
    matches!(
        tokens,
        [
            VToken {
                part: VTokenPart::Sign(VSign::Comma),
                ..
            },
            ..,
        ]
    )
}

/// The inputs after the clock, each with a comma in front.
pub(crate) fn inputs(
    alloc: Global,
    tokens: &[VToken],
) -> Result<(Vec<PlacedInput>, &[VToken]), Missed>
    ensures exact { Gives seen_list result (inputs_of (placed_toks tokens.now)) }
    ensures shorter { IfOk result (λ x. length x.1.now ≤ length tokens.now) }
    ensures place { IfErr result (IsLeft (length tokens.now)) }
{
    let mut all = Vec::new(alloc);
    let mut rest = tokens;
    'each: while has_comma(rest) {
        let (next, after) = input(alloc, rest)?;
        all.push(next)?;
        rest = after;
    }
    Ok((all, rest))
}
