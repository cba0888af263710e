//! How the texts of two lists of pieces begin, and how far they go on behind the same tokens.

ghost use Rattle.std.specs.Prelude.{◌≡◌, option_map};
ghost use Rattle.instruction_texts.specs.Starts.{start_of};
ghost use Rattle.text_tables.specs.Openings.{meet, meet_if_any, begins_so, begin_alike, stay_level, IsRelated};

use crate::alike::alike;
use instruction_texts::{Shape, Start, first_start, negative_start};

/// How the texts of two lists of pieces go on, where they begin with the same tokens.
#[derive(Clone, Copy)]
pub(crate) enum Relation {
    /// They don't begin so, whatever stands behind the lists.
    Apart,
    /// What stands behind both lists goes on behind the same token.
    Level,
    /// One list ends before the other, and the other one goes on.
    Uneven,
    /// This isn't known.
    Open,
}

// Whether a token may begin in both ways.
fn meet(one: Start<'_>, other: Start<'_>) -> bool
    ensures { result ≡ meet (start_of one.entry) (start_of other.entry) }
{
    match (one, other) {
        (Start::Sign(one), Start::Sign(other)) => one == other,
        (Start::Word(one), Start::Word(other)) => one == other,
        (Start::Word(run), Start::Prefix(prefix)) => run.starts_with(prefix),
        (Start::Prefix(prefix), Start::Word(run)) => run.starts_with(prefix),
        (Start::Prefix(one), Start::Prefix(other)) => {
            one.starts_with(other) || other.starts_with(one)
        }
        _ => false,
    }
}

fn meet_if_any(one: Option<Start<'_>>, other: Option<Start<'_>>) -> bool
    ensures { result ≡ meet_if_any (option_map start_of one.entry) (option_map start_of other.entry) }
{
    match (one, other) {
        (Some(one), Some(other)) => meet(one, other),
        _ => false,
    }
}

fn begins_so(one: Option<Start<'_>>, shapes: &[Shape]) -> bool
    ensures { result ≡ begins_so (option_map start_of one.entry) shapes.now }
{
    meet_if_any(one, first_start(shapes)) || meet_if_any(one, negative_start(shapes))
}

// Whether texts of both may begin with one token.
fn begin_alike(first: &[Shape], second: &[Shape]) -> bool
    ensures { result ≡ begin_alike first.now second.now }
{
    begins_so(first_start(first), second) || begins_so(negative_start(first), second)
}

// Whether a text of both goes on behind the same token of it, once it has what the first piece of each says: neither piece has a sign, or
// both have it behind the same run, or one alone has it, and the other can't begin with a negative number.
fn stay_level(first: &[Shape], second: &[Shape]) -> bool
    ensures { result ≡ stay_level first.now second.now }
{
    match (negative_start(first), negative_start(second)) {
        (None, None) => true,
        (Some(one), Some(other)) => meet(one, other),
        (Some(one), None) => !begins_so(Some(one), second),
        (None, Some(other)) => !begins_so(Some(other), first),
    }
}

// How the texts of two lists go on. It compares them piece by piece, as long as a text of both must go on behind the same token.
fn relation_behind(first: &[Shape], second: &[Shape]) -> Relation
    ensures { IsRelated first.now second.now result }
{
    'pieces: for i in 0..first.len().min(second.len()) {
        if !begin_alike(&first[i..], &second[i..]) {
            return Relation::Apart;
        }
        if !stay_level(&first[i..], &second[i..]) {
            return Relation::Open;
        }
    }
    if first.len() == second.len() {
        Relation::Level
    } else {
        Relation::Uneven
    }
}

/// How the texts of two lists go on. The same pieces at the front of both are passed over.
pub(crate) fn relation_of(first: &[Shape], second: &[Shape]) -> Relation
    ensures { IsRelated first.now second.now result }
{
    let same = alike(first, second);
    relation_behind(&first[same..], &second[same..])
}
