//! First values.

ghost use Rattle.std.specs.Prelude.{◌≡◌, ◌<◌, ◌≤◌, IfOk, IfErr, length};
ghost use Rattle.verilog_expression_reader.specs.Past.{placed_toks};
ghost use Rattle.verilog_expression_reader.specs.Gives.{Gives, IsLeft};
ghost use Rattle.verilog_module_reader.specs.Gives.{seen_setting, seen_settings};
ghost use Rattle.verilog_module_reader.specs.Parts.{setting_of, at_end, settings_of};

use lisa_words::{Name, Word};
use std::alloc::Global;
use verilog_expression_reader::Missed;
use verilog_text::{VKeyword, VSign, VToken, VTokenPart};

/// `name = number;`
pub(crate) fn setting(alloc: Global, tokens: &[VToken]) -> Result<((Name, Word), &[VToken]), Missed>
    ensures exact { Gives seen_setting result (setting_of (placed_toks tokens.now)) }
    ensures shorter { IfOk result (λ x. length x.1.now < length tokens.now) }
    ensures place { IfErr result (IsLeft (length tokens.now)) }
{
    match tokens {
        [
            VToken {
                part: VTokenPart::Named(name),
                ..
            },
            VToken {
                part: VTokenPart::Sign(VSign::Equal),
                ..
            },
            VToken {
                part: VTokenPart::Sized(word),
                ..
            },
            VToken {
                part: VTokenPart::Sign(VSign::Semicolon),
                ..
            },
            rest @ ..,
        ] => Ok(((Name::from_bytes(alloc, name.as_bytes())?, *word), rest)),
        _ => Err(Missed::At(tokens.len())),
    }
}

// Whether an `end` stands in front.
fn at_end(tokens: &[VToken]) -> bool
    ensures { result ≡ at_end (placed_toks tokens.now) }
{
    matches!(
        tokens,
        [
            VToken {
                part: VTokenPart::Reserved(VKeyword::End),
                ..
            },
            ..,
        ]
    )
}

/// First values up to an `end`.
pub(crate) fn settings(
    alloc: Global,
    tokens: &[VToken],
) -> Result<(Vec<(Name, Word)>, &[VToken]), Missed>
    ensures exact { Gives seen_settings result (settings_of (placed_toks tokens.now)) }
    ensures shorter { IfOk result (λ x. length x.1.now ≤ length tokens.now) }
    ensures place { IfErr result (IsLeft (length tokens.now)) }
{
    let mut all = Vec::new(alloc);
    let mut rest = tokens;
    'each: while !at_end(rest) {
        let (next, after) = setting(alloc, rest)?;
        all.push(next)?;
        rest = after;
    }
    Ok((all, rest))
}
