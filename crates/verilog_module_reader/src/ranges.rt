//! Ranges.

ghost use Rattle.std.specs.Prelude.{◌≡◌, ◌<◌, ◌≤◌, IfOk, IfErr, length};
ghost use Rattle.verilog_expression_reader.specs.Past.{placed_toks};
ghost use Rattle.verilog_expression_reader.specs.Gives.{Gives, IsLeft};
ghost use Rattle.verilog_module_reader.specs.Gives.{seen_plain};
ghost use Rattle.verilog_module_reader.specs.Parts.{is_zero_to, range_of, cells_of, depth_of, without_wire};

use verilog_expression_reader::{Missed, past};
use verilog_text::{VKeyword, VSign, VToken, VTokenPart};

// Whether the digits are `0`, and one more than the number fits.
fn is_zero_to(low: u32, digits: u32, high: u32) -> bool
    ensures { result ≡ is_zero_to low digits high }
{
    low == 0 && digits == 1 && high < u32::MAX
}

/// The place and the width of a range, or 0 and 1 where there is none.
pub(crate) fn range(tokens: &[VToken]) -> Result<((u32, u32), &[VToken]), Missed>
    ensures exact { Gives seen_plain result (range_of (placed_toks tokens.now)) }
    ensures shorter { IfOk result (λ x. length x.1.now ≤ length tokens.now) }
    ensures place { IfErr result (IsLeft (length tokens.now)) }
{
    match tokens {
        [
            VToken {
                part: VTokenPart::Sign(VSign::OpenSquare),
                at,
            },
            VToken {
                part: VTokenPart::Plain(high, _),
                ..
            },
            VToken {
                part: VTokenPart::Sign(VSign::Colon),
                ..
            },
            VToken {
                part: VTokenPart::Plain(low, digits),
                ..
            },
            VToken {
                part: VTokenPart::Sign(VSign::CloseSquare),
                ..
            },
            rest @ ..,
        ] => {
            if is_zero_to(*low, *digits, *high) {
                Ok(((*at, *high + 1), rest))
            } else {
                Err(Missed::At(tokens.len()))
            }
        }
        [
            VToken {
                part: VTokenPart::Sign(VSign::OpenSquare),
                ..
            },
            ..
        ] => Err(Missed::At(tokens.len())),
        _ => Ok(((0, 1), tokens)),
    }
}

// How many cells `[0:last]` makes.
fn cells(tokens: &[VToken]) -> Result<(u32, &[VToken]), Missed>
    ensures exact { Gives seen_plain result (cells_of (placed_toks tokens.now)) }
    ensures shorter { IfOk result (λ x. length x.1.now ≤ length tokens.now) }
    ensures place { IfErr result (IsLeft (length tokens.now)) }
{
    match tokens {
        [
            VToken {
                part: VTokenPart::Sign(VSign::OpenSquare),
                ..
            },
            VToken {
                part: VTokenPart::Plain(low, digits),
                ..
            },
            VToken {
                part: VTokenPart::Sign(VSign::Colon),
                ..
            },
            VToken {
                part: VTokenPart::Plain(last, _),
                ..
            },
            VToken {
                part: VTokenPart::Sign(VSign::CloseSquare),
                ..
            },
            rest @ ..,
        ] => {
            if is_zero_to(*low, *digits, *last) {
                Ok((*last + 1, rest))
            } else {
                Err(Missed::At(tokens.len()))
            }
        }
        _ => Err(Missed::At(tokens.len())),
    }
}

/// How many cells `[0:last];` makes.
#[tactic(auto, unfolding(crate::specs::Parts::depth_of))]
pub(crate) fn depth(tokens: &[VToken]) -> Result<(u32, &[VToken]), Missed>
    ensures exact { Gives seen_plain result (depth_of (placed_toks tokens.now)) }
    ensures shorter { IfOk result (λ x. length x.1.now ≤ length tokens.now) }
    ensures place { IfErr result (IsLeft (length tokens.now)) }
{
    let (cells, rest) = cells(tokens)?;
    let rest = past(rest, VSign::Semicolon)?;
    Ok((cells, rest))
}

/// The tokens without a `wire` that may stand in front.
pub(crate) fn without_wire(tokens: &[VToken]) -> &[VToken]
    ensures value { placed_toks result.now ≡ without_wire (placed_toks tokens.now) }
    ensures shorter { length result.now ≤ length tokens.now }
{
    match tokens {
        [
            VToken {
                part: VTokenPart::Reserved(VKeyword::Wire),
                ..
            },
            rest @ ..,
        ] => rest,
        _ => tokens,
    }
}
