// The tokens of the whole bytes.
ghost use Rattle.std.specs.Prelude.{◌≡◌, ◌+◌, ◌^◌, ◌<◌, ◌≤◌, ℕ, List, length, drop, map, IfOk, IfErr};
ghost use Rattle.verilog_text.specs.Tokens.{VTok};
ghost use Rattle.verilog_text.specs.Lexing.{Lexes, Breaks};
ghost use Rattle.verilog_lexer.specs.Reading.{item_at, lex};
ghost use Rattle.verilog_lexer.specs.Answers.{Gives, GivesTokens, GivesFault, IsFirst, IsPart, Fails, with_front, placed, item_of};

use crate::items::{Found, item_at};
use std::alloc::Global;
use verilog_text::{VToken, VerilogFault};

// What stands at the front, with a length that leaves less.
fn next_item(alloc: Global, bytes: &[u8], at: u32) -> Result<Found, VerilogFault>
    requires some { 0 < length bytes.now }
    requires few { at + length bytes.now < 2 ^ 32 }
    ensures exact { Gives item_of result (item_at at bytes.now) }
    ensures part { IfOk result (IsPart bytes.now) }
{
    item_at(alloc, bytes, at)
}

// Takes what stands at the front, and says its length: the tokens so far go on in the same way behind it.
fn take_item(
    alloc: Global,
    tokens: &mut Vec<VToken>,
    rest: &[u8],
    at: u32,
) -> Result<usize, VerilogFault>
    requires some { 0 < length rest.now }
    requires few { at + length rest.now < 2 ^ 32 }
    ensures same { IfOk result (λ len. with_front (map placed tokens.new.items) (lex (at + len, drop len rest.now)) ≡ with_front (map placed tokens.old.items) (lex (at, rest.now))) }
    ensures part { IfOk result (λ len. (0 < len) × (len ≤ length rest.now)) }
    ensures fault { IfErr result (λ e. Fails e (lex (at, rest.now))) }
{
    match next_item(alloc, rest, at)? {
        Found::Skip(len) => Ok(len),
        Found::Take(len, part) => {
            tokens.push(VToken { at, part })?;
            Ok(len)
        }
    }
}

fn all_tokens(alloc: Global, bytes: &[u8]) -> Result<Vec<VToken>, VerilogFault>
    requires { length bytes.now < 2 ^ 32 }
    ensures { Gives (λ v. map placed v.items) result (lex (0, bytes.now)) }
{
    let mut tokens = Vec::new(alloc);
    let mut rest = bytes;
    let mut at: u32 = 0;
    'each: while !rest.is_empty() {
        let len = take_item(alloc, &mut tokens, rest, at)?;
        rest = &rest[len..];
        at += len as u32;
    }
    Ok(tokens)
}

/// The tokens of a module's text, with their places. Only a byte at fault is answered, and want of memory.
pub fn tokens(alloc: Global, bytes: &[u8]) -> Result<Vec<VToken>, VerilogFault>
    requires { length bytes.now < 2 ^ 32 }
    // The bytes are blanks, comments and these tokens, each as long as it can be.
    ensures found { IfOk result (λ v. Lexes 0 bytes.now (map placed v.items)) }
    // A byte at fault is the first one.
    ensures fault { IfErr result (IsFirst bytes.now) }
    // Where the bytes are tokens, these are answered, unless memory runs out.
    ensures only { (ts : List (ℕ × VTok)) → Lexes 0 bytes.now ts → GivesTokens ts result }
    // Where a byte is at fault, it is this one.
    ensures only_fault { (place : ℕ) → Breaks 0 bytes.now place → GivesFault place result }
{
    all_tokens(alloc, bytes)
}
