//! How many brackets are open.

ghost use Rattle.std.specs.Prelude.{◌≡◌, ◌+◌, ◌<◌, ◌≤◌, MatchOption};
ghost use Rattle.lisa_tree.specs.Tokens.{toks};
ghost use Rattle.lisa_tree.specs.Brackets.{open_after, open_at, IsTooDeep, IsFlat};

use lisa_tree::{Sign, Token, TokenPart};

/// How many brackets may be open at a token.
const BRACKET_LIMIT: usize = 64;

// How many brackets are open after a token.
fn open_after(depth: usize, token: &Token) -> usize
    requires { depth ≤ 64 }
    ensures { result ≡ open_after depth token.now.part }
{
    match token.part {
        TokenPart::Sign(Sign::OpenRound | Sign::OpenSquare | Sign::OpenBrace) => depth + 1,
        TokenPart::Sign(Sign::CloseRound | Sign::CloseSquare | Sign::CloseBrace) => {
            depth.saturating_sub(1)
        }
        _ => depth,
    }
}

/// The first token at which more than 64 brackets are open.
pub fn too_deep(tokens: &[Token]) -> Option<usize>
    ensures { MatchOption result (IsFlat (toks tokens.now)) (IsTooDeep (toks tokens.now)) }
{
    let mut depth = 0;
    for (i, token) in tokens.iter().enumerate() {
        depth = open_after(depth, token);
        if depth > BRACKET_LIMIT {
            return Some(i);
        }
    }
    None
}
