//! Blocks that leave nothing.

ghost use Rattle.std.specs.Prelude.{◌≡◌, ◌-◌, ◌<◌, ◌^◌, IfOk, length};
ghost use Rattle.lisa_tree.specs.Tokens.{toks};
ghost use Rattle.lisa_behav_reader.specs.Gives.{Gives};
ghost use Rattle.lisa_reader.specs.Skipping.{braces_after, skip_of};

use lisa_behav_reader::Missed;
use lisa_tree::{Sign, Token, TokenPart};

// How many braces are open inside a block behind a token; none where the token closes the block.
fn braces_after(inner: usize, token: &Token) -> Option<usize>
    requires { inner < 2 ^ 64 - 1 }
    ensures { result ≡ braces_after token.now.part inner }
{
    match token.part {
        TokenPart::Sign(Sign::OpenBrace) => Some(inner + 1),
        TokenPart::Sign(Sign::CloseBrace) => inner.checked_sub(1),
        _ => Some(inner),
    }
}

/// The tokens behind the `}` that closes a block of any tokens. Braces are counted, so this doesn't recurse.
pub fn skipped(tokens: &[Token]) -> Result<&[Token], Missed>
    ensures exact { Gives (λ x. toks x.now) result (skip_of (toks tokens.now) 0) }
    ensures shorter { IfOk result (λ x. length x.now < length tokens.now) }
{
    let mut inner = 0;
    let mut rest = tokens;
    'each: while let [first, after @ ..] = rest {
        let Some(next) = braces_after(inner, first) else {
            return Ok(after);
        };
        inner = next;
        rest = after;
    }
    Err(Missed::At(0))
}
