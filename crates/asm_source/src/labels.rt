// The labels at the front of a line.
ghost use Rattle.std.specs.Prelude.{◌≡◌, ◌<◌, ◌≤◌, IfOk, IfSome, option_map, length};
ghost use Rattle.asm_source.specs.Bytes.{skip_blanks};
ghost use Rattle.asm_source.specs.Parts.{named_label, label_of, label_at};
ghost use Rattle.asm_source.specs.Items.{all_items};
ghost use Rattle.asm_source.specs.Gives.{Gives};

use crate::bytes::{cut_word, is_name, skip_blanks};
use crate::flaw::Flaw;
use lisa_words::Name;
use std::alloc::Global;

// A label and the text behind it, where one stands at the front.
#[tactic(auto, unfolding(crate::specs::Parts::label_at))]
fn label_at(text: &[u8]) -> Result<Option<(&[u8], &[u8])>, Flaw>
    ensures exact { Gives (option_map (λ x. (x.0.now, x.1.now))) result (label_at text.now) }
    ensures shorter { IfOk result (λ o. IfSome o (λ x. length x.1.now < length text.now)) }
{
    let (word, rest) = cut_word(text);
    let [b':', rest @ ..] = rest else {
        return Ok(None);
    };
    if word.is_empty() {
        return Ok(None);
    }
    if is_name(word) {
        Ok(Some((word, rest)))
    } else {
        Err(Flaw::BadLine)
    }
}

// All labels at the front, and the text behind them.
pub fn labels(alloc: Global, text: &[u8]) -> Result<(Vec<Name>, &[u8]), Flaw>
    ensures { Gives (λ x. (x.0.items, x.1.now)) result (all_items label_at text.now) }
{
    let mut all = Vec::new(alloc);
    let mut rest = text;
    'each: loop {
        let text = skip_blanks(rest);
        let Some((label, after)) = label_at(text)? else {
            return Ok((all, text));
        };
        all.push(Name::from_bytes(alloc, label)?)?;
        rest = after;
    }
}
