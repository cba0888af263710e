//! The tokens of the whole bytes.

ghost use Rattle.std.specs.Prelude.{◌≡◌, ◌+◌, ◌^◌, ◌<◌, ◌≤◌, ℕ, List, length, drop, IfOk, IfErr};
ghost use Rattle.lisa_tree.specs.declared.faults.DescFault.{DescFault};
ghost use Rattle.lisa_tree.specs.declared.tokens.Token.{Token};
ghost use Rattle.lisa_tree.specs.Tokens.{Lexes, Breaks};
ghost use Rattle.lisa_lexer.specs.Written.{Piece, ArePieces, Reads, text_of, parts_of};
ghost use Rattle.lisa_lexer.specs.Lexing.{item_at, lex};
ghost use Rattle.lisa_lexer.specs.Answers.{Gives, GivesTokens, GivesFault, IsFirst, IsPart, Fails, HasOutcome, with_front};

use crate::items::{Item, item_at};
use lisa_tree::{DescFault, Token};
use std::alloc::Global;

// What stands at the front, with a length that leaves less.
fn next_item(alloc: Global, bytes: &[u8], at: u32) -> Result<Item, DescFault>
    requires some { 0 < length bytes.now }
    requires few { at + length bytes.now < 2 ^ 32 }
    ensures exact { Gives (λ i. i) result (item_at at bytes.now) }
    ensures part { IfOk result (IsPart bytes.now) }
{
    item_at(alloc, bytes, at)
}

// Takes what stands at the front, and says its length: the tokens so far go on in the same way behind it.
fn take_item(
    alloc: Global,
    tokens: &mut Vec<Token>,
    rest: &[u8],
    at: u32,
) -> Result<usize, DescFault>
    requires some { 0 < length rest.now }
    requires few { at + length rest.now < 2 ^ 32 }
    ensures same { IfOk result (λ len. with_front tokens.new.items (lex (at + len, drop len rest.now)) ≡ with_front tokens.old.items (lex (at, rest.now))) }
    ensures part { IfOk result (λ len. (0 < len) × (len ≤ length rest.now)) }
    ensures fault { IfErr result (λ e. Fails e (lex (at, rest.now))) }
{
    match next_item(alloc, rest, at)? {
        Item::Skip(len) => Ok(len),
        Item::Take(len, part) => {
            tokens.push(Token { at, part })?;
            Ok(len)
        }
    }
}

fn all_tokens(alloc: Global, bytes: &[u8]) -> Result<Vec<Token>, DescFault>
    requires { length bytes.now < 2 ^ 32 }
    ensures { Gives (λ v. v.items) result (lex (0, bytes.now)) }
{
    let mut tokens = Vec::new(alloc);
    let mut rest = bytes;
    let mut at: u32 = 0;
    'each: while !rest.is_empty() {
        let len = take_item(alloc, &mut tokens, rest, at)?;
        rest = &rest[len..];
        at += len as u32;
    }
    Ok(tokens)
}

/// The tokens of a description, with their places. Only the first three faults are answered, and want of memory.
pub fn tokens(alloc: Global, bytes: &[u8]) -> Result<Vec<Token>, DescFault>
    requires { length bytes.now < 2 ^ 32 }
    // The bytes are blanks, comments and these tokens, each as long as it can be.
    ensures found { IfOk result (λ v. Lexes 0 bytes.now v.items) }
    // A fault is the first one from the left.
    ensures fault { IfErr result (IsFirst bytes.now) }
    // Where the bytes are tokens, these are answered, unless memory runs out.
    ensures only { (ts : List Token) → Lexes 0 bytes.now ts → GivesTokens ts result }
    // Where they have a fault, it is this one.
    ensures only_fault { (fault : DescFault) → Breaks 0 bytes.now fault → GivesFault fault result }
{
    all_tokens(alloc, bytes)
}

/// Bytes are one list of tokens or have a fault, and neither both nor two of them. A law: the function does nothing.
pub fn tokens_are_unique(bytes: &[u8])
    ensures some { HasOutcome bytes.now }
    ensures one { (ts us : List Token) → Lexes 0 bytes.now ts → Lexes 0 bytes.now us → ts ≡ us }
    ensures whole { (ts : List Token) (fault : DescFault) → Lexes 0 bytes.now ts → Breaks 0 bytes.now fault → ⊥ }
    ensures first { (f g : DescFault) → Breaks 0 bytes.now f → Breaks 0 bytes.now g → f ≡ g }
{
    let _bytes = bytes;
}

/// Tokens that are written apart from each other are read again. A law: the function does nothing.
pub fn written_tokens_are_read()
    ensures { (pieces : List Piece) (last : List ℕ) → ArePieces pieces last → Reads (text_of pieces last) (parts_of pieces) }
{}
