// The pieces of an instruction's text.
ghost use Rattle.std.specs.Prelude.{◌≡◌, ◌<◌, IfOk, IfSome, map, option_map, length};
ghost use Rattle.asm_source.specs.Plain.{PlainToken, token_tree};
ghost use Rattle.asm_source.specs.Parts.{token_at};
ghost use Rattle.asm_source.specs.Items.{all_items};
ghost use Rattle.asm_source.specs.Gives.{Gives};

use crate::bytes::{cut_word, skip_blanks};
use crate::flaw::Flaw;
use crate::operands::operand_at;
use crate::parts::LineToken;
use lisa_words::Name;
use std::alloc::Global;

// The piece at the front and the text behind it, where there is one.
#[tactic(auto, unfolding(crate::specs::Parts::token_at))]
fn token_at(alloc: Global, text: &[u8]) -> Result<Option<(LineToken, &[u8])>, Flaw>
    ensures exact { Gives (option_map (λ x. (token_tree x.0, x.1.now))) result (token_at text.now) }
    ensures shorter { IfOk result (λ o. IfSome o (λ x. length x.1.now < length text.now)) }
{
    let (word, rest) = cut_word(text);
    if let [b'@', rest @ ..] = rest {
        let (sum, rest) = operand_at(alloc, rest)?;
        let word = Name::from_bytes(alloc, word)?;
        return Ok(Some((LineToken::Operand(word, sum), rest)));
    }
    if !word.is_empty() {
        let word = Name::from_bytes(alloc, word)?;
        return Ok(Some((LineToken::Run(word), rest)));
    }
    match rest {
        [] => Ok(None),
        [sign, rest @ ..] => Ok(Some((LineToken::Sign(*sign), rest))),
    }
}

// All pieces of a text.
pub fn instruction(alloc: Global, text: &[u8]) -> Result<(Vec<LineToken>, &[u8]), Flaw>
    ensures { Gives (λ x. (map token_tree x.0.items, x.1.now)) result (all_items token_at text.now) }
{
    let mut all = Vec::new(alloc);
    let mut rest = text;
    'each: loop {
        let text = skip_blanks(rest);
        let Some((token, after)) = token_at(alloc, text)? else {
            return Ok((all, text));
        };
        all.push(token)?;
        rest = after;
    }
}
