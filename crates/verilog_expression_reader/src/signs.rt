// The tokens behind a sign.

ghost use Rattle.std.specs.Prelude.{◌≡◌, ◌<◌, ◌≤◌, IfOk, IfErr, length};
ghost use Rattle.verilog_expression_reader.specs.Gives.{Gives, IsLeft};
ghost use Rattle.verilog_expression_reader.specs.Past.{placed_toks, number_of, past_of};

use crate::misses::Missed;
use verilog_text::{VSign, VToken, VTokenPart};

/// The tokens behind a sign.
pub fn past(tokens: &[VToken], sign: VSign) -> Result<&[VToken], Missed>
    ensures exact { Gives (λ x. placed_toks x.now) result (past_of sign (placed_toks tokens.now)) }
    ensures shorter { IfOk result (λ x. length x.now < length tokens.now) }
    ensures place { IfErr result (IsLeft (length tokens.now)) }
{
    match tokens {
        [
            VToken {
                part: VTokenPart::Sign(first),
                ..
            },
            rest @ ..,
        ] if number(*first) == number(sign) => Ok(rest),
        _ => Err(Missed::At(tokens.len())),
    }
}

/// The number of a sign, in the order of the enum.
pub fn number(sign: VSign) -> u8
    ensures { result ≡ number_of sign }
{
    sign as u8
}
