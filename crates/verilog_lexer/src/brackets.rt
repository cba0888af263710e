// How many brackets are open.
ghost use Rattle.std.specs.Prelude.{◌≡◌, ◌≤◌, map};
ghost use Rattle.verilog_text.specs.Tokens.{vtok_of};
ghost use Rattle.verilog_text.specs.Spelling.{open_after, first_deep};
ghost use Rattle.verilog_lexer.specs.Answers.{placed};

use verilog_text::{VSign, VToken, VTokenPart};

// How many brackets are open after a token.
fn open_after(depth: usize, token: &VToken) -> usize
    requires { depth ≤ 64 }
    ensures { result ≡ open_after depth (vtok_of token.now) }
{
    match token.part {
        VTokenPart::Sign(VSign::OpenRound | VSign::OpenSquare | VSign::OpenBrace) => depth + 1,
        VTokenPart::Sign(VSign::CloseRound | VSign::CloseSquare | VSign::CloseBrace) => {
            depth.saturating_sub(1)
        }
        _ => depth,
    }
}

/// The place of the first token at which more than 64 brackets are open.
pub fn too_deep(tokens: &[VToken]) -> Option<u32>
    ensures { result ≡ first_deep 0 (map placed tokens.now) }
{
    let mut depth = 0;
    'each: for token in tokens {
        depth = open_after(depth, token);
        if depth > 64 {
            return Some(token.at);
        }
    }
    None
}
