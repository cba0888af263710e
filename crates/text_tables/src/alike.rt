//! How far forms have the same pieces.

ghost use Rattle.std.specs.Prelude.{◌≡◌, ◌≤◌, ◌<◌, IfOk, IsTrue, length, take};
ghost use Rattle.text_tables.specs.Alike.{IsAlikeToBefore, AreAlike};
ghost use Rattle.text_tables.specs.Parts.{all_pieces, text_pieces};

use crate::texts::{Part, Texts, only_part};
use instruction_texts::Shape;
use lisa_words::NoMemory;
use std::alloc::Global;

// Whether two pieces are the same.
fn is_same(one: &Shape, other: &Shape) -> bool
    ensures { IsTrue result → one.now ≡ other.now }
{
    one == other
}

/// How many pieces at the front of both are the same.
pub(crate) fn alike(one: &[Shape], other: &[Shape]) -> usize
    ensures same { take result one.now ≡ take result other.now }
    ensures first { result ≤ length one.now }
    ensures second { result ≤ length other.now }
{
    let most = one.len().min(other.len());
    'pieces: for i in 0..most {
        if !is_same(&one[i], &other[i]) {
            return i;
        }
    }
    most
}

// How many pieces at the front of two texts are the same, where each has one part; else none are counted.
fn alike_texts(shared: &[Vec<Shape>], one: &[Part], other: &[Part]) -> usize
    ensures { take result (text_pieces shared.now one.now) ≡ take result (text_pieces shared.now other.now) }
{
    match (only_part(shared, one), only_part(shared, other)) {
        (Some(one), Some(other)) => alike(one, other),
        _ => 0,
    }
}

// How many pieces at the front of a form are those of the form before it; 0 for the first one, and where either has more parts than one.
fn alike_to_before(texts: &Texts, form: usize) -> usize
    requires { form < length texts.now.texts.items }
    ensures { IsAlikeToBefore (all_pieces texts.now) form result }
{
    if form == 0 {
        return 0;
    }
    alike_texts(&texts.shared, &texts.texts[form - 1], &texts.texts[form])
}

/// The same for each form.
pub(crate) fn alike_counts(alloc: Global, texts: &Texts) -> Result<Vec<usize>, NoMemory>
    ensures { IfOk result (λ counts. AreAlike (all_pieces texts.now) counts.items) }
{
    let mut counts = Vec::new(alloc);
    'forms: for form in 0..texts.texts.len() {
        counts.push(alike_to_before(texts, form))?;
    }
    Ok(counts)
}
