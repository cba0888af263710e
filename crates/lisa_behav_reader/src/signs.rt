//! The tokens behind a sign.

ghost use Rattle.std.specs.Prelude.{◌≡◌, ◌<◌, ◌≤◌, IfOk, IfErr, length};
ghost use Rattle.lisa_tree.specs.Tokens.{toks};
ghost use Rattle.lisa_behav_reader.specs.Gives.{Gives, IsLeft};
ghost use Rattle.lisa_behav_reader.specs.Past.{number_of, past_of};
ghost use Rattle.lisa_behav_reader.specs.Reading.{name_of};

use crate::misses::Missed;
use lisa_tree::{Sign, Token, TokenPart};
use lisa_words::Name;
use std::alloc::Global;

/// The tokens behind a sign.
pub fn past(tokens: &[Token], sign: Sign) -> Result<&[Token], Missed>
    ensures exact { Gives (λ x. toks x.now) result (past_of sign (toks tokens.now)) }
    ensures shorter { IfOk result (λ x. length x.now < length tokens.now) }
    ensures place { IfErr result (IsLeft (length tokens.now)) }
{
    match tokens {
        [
            Token {
                part: TokenPart::Sign(first),
                ..
            },
            rest @ ..,
        ] if number(*first) == number(sign) => Ok(rest),
        _ => Err(Missed::At(tokens.len())),
    }
}

/// The number of a sign, in the order of the enum.
pub fn number(sign: Sign) -> u8
    ensures { result ≡ number_of sign }
{
    sign as u8
}

/// A name, and the tokens behind it.
pub fn name(alloc: Global, tokens: &[Token]) -> Result<(Name, &[Token]), Missed>
    ensures exact { Gives (λ x. (x.0, toks x.1.now)) result (name_of (toks tokens.now)) }
    ensures shorter { IfOk result (λ x. length x.1.now < length tokens.now) }
    ensures place { IfErr result (IsLeft (length tokens.now)) }
{
    match tokens {
        [
            Token {
                part: TokenPart::Named(name),
                ..
            },
            rest @ ..,
        ] => Ok((Name::from_bytes(alloc, name.as_bytes())?, rest)),
        _ => Err(Missed::At(tokens.len())),
    }
}
