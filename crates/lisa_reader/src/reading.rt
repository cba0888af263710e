//! Descriptions from bytes.

ghost use Rattle.std.specs.Prelude.{◌≡◌, ◌<◌, ◌^◌, ◌⊎◌, List, ℕ, length, Some, IfOk, IfErr, IsErr, MatchResult, slice_get};
ghost use Rattle.lisa_tree.specs.declared.faults.DescFault.{DescFault as TheFault};
ghost use Rattle.lisa_tree.specs.declared.faults.DescFault.TheVariants as faults;
ghost use Rattle.lisa_tree.specs.Brackets.{IsFlat, IsTooDeep};
ghost use Rattle.lisa_tree.specs.Descriptions.{DescriptionTree, description_tree};
ghost use Rattle.lisa_tree.specs.Texts.{SpellsText};
ghost use Rattle.lisa_tree.specs.Tokens.{Lexes, toks};
ghost use Rattle.lisa_behav_reader.specs.Places.{IsPlace};
ghost use Rattle.lisa_reader.specs.Answers.{IsBroken};
ghost use Rattle.lisa_reader.specs.Reading.{description_of};

use crate::operations::description;
use lisa_behav_reader::Missed;
use lisa_lexer::{tokens, too_deep};
use lisa_tree::{DescFault, Description, Token};
use std::alloc::Global;

// Where so many tokens are left: the place of a token, or the end of the bytes.
fn place(tokens: &[Token], left: usize, end: u32) -> u32
    ensures { IsPlace result tokens.now ⊎ (result ≡ end) }
{
    match tokens.get(tokens.len().saturating_sub(left)) {
        Some(token) => token.at,
        None => end,
    }
}

/// The description that bytes spell.
///
/// Time and memory grow with the number of bytes. Recursion is as deep as the brackets and the depth of the description
/// together, which are limited to 64 and 128.
pub fn read_description(alloc: Global, bytes: &[u8]) -> Result<Description, DescFault>
    requires { length bytes.now < 2 ^ 32 }
    // What is read is what the bytes spell.
    ensures found { IfOk result (λ d. SpellsText bytes.now (description_tree d)) }
    // A fault is theirs, or memory ran out.
    ensures fault { IfErr result (λ f. (f ≡ faults.NoMemory) ⊎ IsBroken bytes.now f) }
    // What they spell is read, unless memory runs out.
    ensures only { (t : DescriptionTree) → SpellsText bytes.now t → MatchResult result (λ d. description_tree d ≡ t) (λ f. f ≡ faults.NoMemory) }
    // Where they have a fault, nothing is read.
    ensures only_fault { (f : TheFault) → IsBroken bytes.now f → IsErr result }
{
    let tokens = tokens(alloc, bytes)?;
    if let Some(i) = too_deep(&tokens) {
        return Err(DescFault::TooDeep { at: tokens[i].at });
    }
    match description(alloc, &tokens) {
        Ok(d) => Ok(d),
        Err(Missed::NoMemory) => Err(DescFault::NoMemory),
        Err(Missed::At(left)) => Err(DescFault::NotADescription {
            at: place(&tokens, left, bytes.len() as u32),
        }),
    }
}
