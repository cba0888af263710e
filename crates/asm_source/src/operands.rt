// `@` operands.
ghost use Rattle.std.specs.Prelude.{◌≡◌, ◌+◌, ◌<◌, ◌≤◌, IfOk, length, Ok};
ghost use Rattle.asm_source.specs.Numbers.{IsShort};
ghost use Rattle.asm_source.specs.Plain.{sum_tree};
ghost use Rattle.asm_source.specs.Sums.{word_atom, atom_at, one_term, plus, behind_term, terms_at, inner_at, sum_at, operand_at};
ghost use Rattle.asm_source.specs.Gives.{Gives};

use crate::bytes::{cut_word, is_name, starts_word};
use crate::flaw::Flaw;
use crate::numbers::{number, signed};
use crate::parts::{Sum, Term};
use lisa_words::Name;
use std::alloc::Global;

// A term as it stands.
#[derive(Debug, Drop)]
pub enum Atom {
    Value(u64),
    Symbol(Option<Name>),
}

// The name or number that a word is.
#[tactic(auto, unfolding(crate::specs::Sums::word_atom))]
fn word_atom(alloc: Global, word: &[u8]) -> Result<Atom, Flaw>
    ensures { Gives (λ a. a) result (word_atom word.now) }
{
    if is_name(word) {
        return Ok(Atom::Symbol(Some(Name::from_bytes(alloc, word)?)));
    }
    match number(word) {
        Some(value) => Ok(Atom::Value(value)),
        None => Err(Flaw::BadExpression),
    }
}

// The term at the front.
#[tactic(auto, unfolding(crate::specs::Sums::atom_at))]
fn atom_at(alloc: Global, text: &[u8]) -> Result<(Atom, &[u8]), Flaw>
    ensures exact { Gives (λ x. (x.0, x.1.now)) result (atom_at text.now) }
    ensures shorter { IfOk result (λ x. length x.1.now ≤ length text.now) }
{
    match text {
        [] => Err(Flaw::BadExpression),
        [b'$', rest @ ..] => Ok((Atom::Symbol(None), rest)),
        _ => {
            let (word, rest) = cut_word(text);
            Ok((word_atom(alloc, word)?, rest))
        }
    }
}

// The sum of one term.
fn one_term(alloc: Global, minus: bool, atom: Atom) -> Result<Sum, Flaw>
    ensures exact { Gives sum_tree result (Ok (one_term minus atom)) }
    ensures short { IfOk result (λ s. IsShort 1 s.constant) }
{
    let mut terms = Vec::new(alloc);
    match atom {
        Atom::Value(value) => Ok(Sum {
            constant: signed(minus, value),
            terms,
        }),
        Atom::Symbol(name) => {
            terms.push(Term { minus, name })?;
            Ok(Sum { constant: 0, terms })
        }
    }
}

// One sum more than another.
fn plus(first: Sum, more: Sum, count: u32) -> Result<Sum, Flaw>
    requires count { count < 8 }
    requires first { IsShort 1 first.constant }
    requires more { IsShort count more.constant }
    ensures exact { Gives sum_tree result (Ok (plus (sum_tree first) (sum_tree more))) }
    ensures short { IfOk result (λ s. IsShort (count + 1) s.constant) }
{
    let Sum {
        constant,
        mut terms,
    } = first;
    let Sum {
        constant: next,
        terms: mut others,
    } = more;
    terms.append(&mut others)?;
    Ok(Sum {
        constant: constant + next,
        terms,
    })
}

// At most so many terms and `)`.
#[tactic(auto, unfolding(crate::specs::Sums::terms_at))]
fn terms_at(alloc: Global, text: &[u8], minus: bool, most: u32) -> Result<(Sum, &[u8]), Flaw>
    requires { most ≤ 8 }
    ensures exact { Gives (λ x. (sum_tree x.0, x.1.now)) result (terms_at most minus text.now) }
    ensures short { IfOk result (λ x. IsShort most x.0.constant) }
    ensures shorter { IfOk result (λ x. length x.1.now ≤ length text.now) }
{
    if most == 0 {
        return Err(Flaw::BadExpression);
    }
    let (atom, rest) = atom_at(alloc, text)?;
    let first = one_term(alloc, minus, atom)?;
    match rest {
        [b')', rest @ ..] => Ok((first, rest)),
        [b'+', rest @ ..] => {
            let (more, rest) = terms_at(alloc, rest, false, most - 1)?;
            Ok((plus(first, more, most - 1)?, rest))
        }
        [b'-', rest @ ..] => {
            let (more, rest) = terms_at(alloc, rest, true, most - 1)?;
            Ok((plus(first, more, most - 1)?, rest))
        }
        _ => Err(Flaw::BadExpression),
    }
}

// One to eight terms behind `@(`.
#[tactic(auto, unfolding(crate::specs::Sums::inner_at))]
fn inner_at(alloc: Global, text: &[u8]) -> Result<(Sum, &[u8]), Flaw>
    ensures exact { Gives (λ x. (sum_tree x.0, x.1.now)) result (inner_at text.now) }
    ensures shorter { IfOk result (λ x. length x.1.now ≤ length text.now) }
{
    match text {
        [b'-', rest @ ..] => terms_at(alloc, rest, true, 8),
        _ => terms_at(alloc, text, false, 8),
    }
}

fn sum_at(alloc: Global, text: &[u8]) -> Result<(Sum, &[u8]), Flaw>
    ensures exact { Gives (λ x. (sum_tree x.0, x.1.now)) result (sum_at text.now) }
    ensures shorter { IfOk result (λ x. length x.1.now ≤ length text.now) }
{
    match text {
        [] => Err(Flaw::BadExpression),
        [b'(', rest @ ..] => inner_at(alloc, rest),
        _ => {
            let (atom, rest) = atom_at(alloc, text)?;
            Ok((one_term(alloc, false, atom)?, rest))
        }
    }
}

// The operand behind an `@`.
#[tactic(auto, unfolding(crate::specs::Sums::operand_at))]
pub fn operand_at(alloc: Global, text: &[u8]) -> Result<(Sum, &[u8]), Flaw>
    ensures exact { Gives (λ x. (sum_tree x.0, x.1.now)) result (operand_at text.now) }
    ensures shorter { IfOk result (λ x. length x.1.now ≤ length text.now) }
{
    let (sum, rest) = sum_at(alloc, text)?;
    if starts_word(rest) {
        return Err(Flaw::BadExpression);
    }
    Ok((sum, rest))
}
