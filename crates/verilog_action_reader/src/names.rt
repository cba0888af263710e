//! Names.

ghost use Rattle.std.specs.Prelude.{◌<◌, ◌≤◌, IfOk, IfErr, length};
ghost use Rattle.verilog_expression_reader.specs.Past.{placed_toks};
ghost use Rattle.verilog_expression_reader.specs.Gives.{Gives, IsLeft};
ghost use Rattle.verilog_action_reader.specs.Gives.{seen_name};
ghost use Rattle.verilog_action_reader.specs.Reading.{name_of};

use lisa_words::Name;
use std::alloc::Global;
use verilog_expression_reader::Missed;
use verilog_text::{VToken, VTokenPart};

/// A name, and the tokens behind it.
pub fn name(alloc: Global, tokens: &[VToken]) -> Result<(Name, &[VToken]), Missed>
    ensures exact { Gives seen_name result (name_of (placed_toks tokens.now)) }
    ensures shorter { IfOk result (λ x. length x.1.now < length tokens.now) }
    ensures place { IfErr result (IsLeft (length tokens.now)) }
{
    match tokens {
        [
            VToken {
                part: VTokenPart::Named(name),
                ..
            },
            rest @ ..,
        ] => Ok((Name::from_bytes(alloc, name.as_bytes())?, rest)),
        _ => Err(Missed::At(tokens.len())),
    }
}
