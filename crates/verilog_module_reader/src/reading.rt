//! Whole modules.

ghost use Rattle.std.specs.Prelude.{◌≡◌, ◌<◌, ◌≤◌, IfOk, IfErr, length};
ghost use Rattle.verilog_places.specs.Trees.{PlacedModuleTree, placed_module};
ghost use Rattle.verilog_expression_reader.specs.Past.{placed_toks};
ghost use Rattle.verilog_expression_reader.specs.Gives.{Gives, IsLeft};
ghost use Rattle.verilog_module_reader.specs.Gives.{seen_plain, seen_pins};
ghost use Rattle.verilog_module_reader.specs.Modules.{opening_of, pins_of, is_end, module_of};
ghost use Rattle.verilog_module_reader.specs.Answers.{PlainsFit, IsModule, IsRead, IsMiss, Turned};

use crate::inputs::inputs;
use crate::members::members;
use crate::ranges::without_wire;
use lisa_words::Name;
use std::alloc::Global;
use verilog_action_reader::name;
use verilog_expression_reader::{Missed, past};
use verilog_places::{PlacedInput, PlacedModule};
use verilog_text::{VKeyword, VSign, VToken, VTokenPart, VerilogFault};

// The name of a module, behind which its clock is to come.
fn opening(alloc: Global, tokens: &[VToken]) -> Result<(Name, &[VToken]), Missed>
    ensures exact { Gives seen_plain result (opening_of (placed_toks tokens.now)) }
    ensures shorter { IfOk result (λ x. length x.1.now ≤ length tokens.now) }
    ensures place { IfErr result (IsLeft (length tokens.now)) }
{
    match tokens {
        [
            VToken {
                part: VTokenPart::Reserved(VKeyword::Module),
                ..
            },
            VToken {
                part: VTokenPart::Named(name),
                ..
            },
            VToken {
                part: VTokenPart::Sign(VSign::OpenRound),
                ..
            },
            VToken {
                part: VTokenPart::Reserved(VKeyword::Input),
                ..
            },
            rest @ ..,
        ] => Ok((Name::from_bytes(alloc, name.as_bytes())?, rest)),
        _ => Err(Missed::At(tokens.len())),
    }
}

// The clock and the inputs after it.
#[tactic(auto, unfolding(crate::specs::Modules::pins_of))]
fn pins(alloc: Global, tokens: &[VToken]) -> Result<((Name, Vec<PlacedInput>), &[VToken]), Missed>
    ensures exact { Gives seen_pins result (pins_of (placed_toks tokens.now)) }
    ensures shorter { IfOk result (λ x. length x.1.now ≤ length tokens.now) }
    ensures place { IfErr result (IsLeft (length tokens.now)) }
{
    let (clock, rest) = name(alloc, without_wire(tokens))?;
    let (inputs, rest) = inputs(alloc, rest)?;
    let rest = past(rest, VSign::CloseRound)?;
    let rest = past(rest, VSign::Semicolon)?;
    Ok(((clock, inputs), rest))
}

// Whether `endmodule` is all that stands there.
fn is_end(tokens: &[VToken]) -> bool
    ensures { result ≡ is_end (placed_toks tokens.now) }
{
    matches!(
        tokens,
        [VToken {
            part: VTokenPart::Reserved(VKeyword::EndModule),
            ..
        }]
    )
}

// The module that all the tokens are, whose expressions and actions are at most so deep.
#[tactic(auto, unfolding(crate::specs::Modules::module_of))]
fn module(alloc: Global, tokens: &[VToken], budget: u32) -> Result<PlacedModule, Missed>
    ensures exact { Gives placed_module result (module_of budget (placed_toks tokens.now)) }
    ensures place { IfErr result (IsLeft (length tokens.now)) }
{
    let (name, rest) = opening(alloc, tokens)?;
    let ((clock, inputs), rest) = pins(alloc, rest)?;
    let (members, rest) = members(alloc, rest, budget)?;
    if !is_end(rest) {
        return Err(Missed::At(rest.len()));
    }
    Ok(PlacedModule {
        name,
        clock,
        inputs,
        members,
    })
}

// The fault that stands for what was missed: its place is that of a token, or 0.
fn fault(tokens: &[VToken], missed: Missed) -> VerilogFault
    ensures kind { Turned missed result }
    ensures place { IsMiss tokens.now result }
{
    match missed {
        Missed::NoMemory => VerilogFault::NoMemory,
        Missed::At(left) => match tokens.get(tokens.len().saturating_sub(left)) {
            Some(token) => VerilogFault::NotInSubset { at: token.at },
            None => VerilogFault::NotInSubset { at: 0 },
        },
    }
}

/// The module that the tokens spell, with the places of its ranges and expressions. Recursion is as deep as its expressions and
/// actions, and as the brackets of an expression.
pub fn read_placed(alloc: Global, tokens: &[VToken]) -> Result<PlacedModule, VerilogFault>
    // What is read is spelled.
    ensures found { IfOk result (λ m. IsModule (placed_toks tokens.now) (placed_module m)) }
    // What is spelled is read, unless memory runs out; so NotInSubset comes only where nothing is.
    ensures only { PlainsFit (placed_toks tokens.now) → (m : PlacedModuleTree) → IsModule (placed_toks tokens.now) m → IsRead m result }
    ensures miss { IfErr result (IsMiss tokens.now) }
{
    match module(alloc, tokens, 128) {
        Ok(m) => Ok(m),
        Err(missed) => Err(fault(tokens, missed)),
    }
}
