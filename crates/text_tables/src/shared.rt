//! Texts that two forms share.

ghost use Rattle.std.specs.Prelude.{◌≡◌, ◌<◌, List, IfOk, IfSome, IfNone, length, map};
ghost use Rattle.std.specs.List.{All};
ghost use Rattle.instruction_texts.specs.declared.shapes.Token.{Token};
ghost use Rattle.instruction_texts.specs.Shapes.{IsSized, IsText};
ghost use Rattle.instruction_texts.specs.Written.{text_bytes};
ghost use Rattle.text_tables.specs.Parts.{all_pieces, text_pieces};
ghost use Rattle.text_tables.specs.Relations.{AreRelated};
ghost use Rattle.text_tables.specs.Shared.{AnswersShared, AnswersWith};

use crate::relations::Relations;
use crate::texts::{Part, Texts, only_part, whole_text};
use instruction_texts::{Shape, common_text};
use lisa_words::NoMemory;
use std::alloc::Global;

/// Two forms by their numbers, and the bytes of a text of both.
#[derive(Debug, Drop)]
pub struct Shared {
    pub first: usize,
    pub second: usize,
    pub text: Vec<u8>,
}

// A text of both forms, where there is one.
fn common_of(
    alloc: Global,
    shared: &[Vec<Shape>],
    first: &[Part],
    second: &[Part],
) -> Result<Option<Vec<u8>>, NoMemory>
    requires first { All IsSized (text_pieces shared.now first.now) }
    requires second { All IsSized (text_pieces shared.now second.now) }
    ensures found { IfOk result (λ found. IfSome found (λ bytes. (ts : List Token) × IsText (text_pieces shared.now first.now) ts × IsText (text_pieces shared.now second.now) ts × (bytes.items ≡ text_bytes ts))) }
    ensures none { IfOk result (λ found. IfNone found ((ts : List Token) → IsText (text_pieces shared.now first.now) ts → IsText (text_pieces shared.now second.now) ts → ⊥)) }
{
    if let (Some(one), Some(other)) = (only_part(shared, first), only_part(shared, second)) {
        return common_text(alloc, one, other);
    }
    let one = whole_text(alloc, shared, first)?;
    let other = whole_text(alloc, shared, second)?;
    common_text(alloc, &one, &other)
}

// The same, which is looked for where texts of both may go on alike.
fn shared_text(
    alloc: Global,
    shared: &[Vec<Shape>],
    relations: &Relations,
    first: &[Part],
    second: &[Part],
) -> Result<Option<Vec<u8>>, NoMemory>
    requires related { AreRelated (map (λ v. v.items) shared.now) relations.now }
    requires first { All IsSized (text_pieces shared.now first.now) }
    requires second { All IsSized (text_pieces shared.now second.now) }
    ensures found { IfOk result (λ found. IfSome found (λ bytes. (ts : List Token) × IsText (text_pieces shared.now first.now) ts × IsText (text_pieces shared.now second.now) ts × (bytes.items ≡ text_bytes ts))) }
    ensures none { IfOk result (λ found. IfNone found ((ts : List Token) → IsText (text_pieces shared.now first.now) ts → IsText (text_pieces shared.now second.now) ts → ⊥)) }
{
    if relations.may_share_text(shared, first, second) {
        common_of(alloc, shared, first, second)
    } else {
        Ok(None)
    }
}

// The first later form that shares a text with this one.
fn shared_with(
    alloc: Global,
    texts: &Texts,
    relations: &Relations,
    first: usize,
) -> Result<Option<Shared>, NoMemory>
    requires related { AreRelated (map (λ v. v.items) texts.now.shared.items) relations.now }
    requires within { first < length texts.now.texts.items }
    requires sized { All (All IsSized) (all_pieces texts.now) }
    ensures { IfOk result (AnswersWith (all_pieces texts.now) first) }
{
    'later: for second in first + 1..texts.texts.len() {
        let (one, other) = (&texts.texts[first], &texts.texts[second]);
        if let Some(text) = shared_text(alloc, &texts.shared, relations, one, other)? {
            return Ok(Some(Shared {
                first,
                second,
                text,
            }));
        }
    }
    Ok(None)
}

/// The first two different forms that have a text in common: the least first one, and with it the least second one.
pub fn first_shared(alloc: Global, texts: &Texts) -> Result<Option<Shared>, NoMemory>
    requires { All (All IsSized) (all_pieces texts.now) }
    ensures { IfOk result (AnswersShared (all_pieces texts.now)) }
{
    let relations = Relations::make(alloc, &texts.shared)?;
    'forms: for first in 0..texts.texts.len() {
        if let Some(shared) = shared_with(alloc, texts, &relations, first)? {
            return Ok(Some(shared));
        }
    }
    Ok(None)
}
