// The lines of the debugger, and what they ask for.
ghost use Rattle.std.specs.Prelude.{◌≡◌, ◌<◌, ◌≤◌, ◌==◌, if◌then◌else◌, List, [], ◌∷◌, ℕ, IfOk, IfSome, Some, None, Err, length, map, codes, slice_index_or, nat_lt};
ghost use Rattle.std.specs.List.{slice_split, list_any};
ghost use Rattle.std.specs.Str.{bytes_eq};
ghost use Rattle.std.specs.Str.Lines.{strip_carriage_return};
ghost use Rattle.lisa_engine.specs.Schedules.{number_of, is_named};
ghost use Rattle.lisa_engine.specs.declared.parts.Item.{Item};
ghost use Rattle.lisa_engine.specs.declared.parts.ArrayItem.{ArrayItem};
ghost use Rattle.lisa_debug.specs.Commands.{item_place, has_cell, cell_place, step_of, until_of, back_of, item_of, cell_of, verb_alone, verb_with, verb_cell, verb_until, command_of_words, is_empty_word, command_of_text, command_of, IsShown, IsWithin};

use lisa_engine::{ArrayItem, Item, read_number};
use std::alloc::{AllocError, Global};

/// Whether a session goes on.
#[derive(Clone, Copy, Debug, PartialEq, Eq)]
pub enum Go {
    On,
    Quit,
}

// What a line asks for, with the places of what it names.
#[derive(Clone, Copy, Debug, PartialEq, Eq)]
pub(crate) enum Command {
    Step(u32),
    Until(usize, u64, u32),
    Show,
    ShowItem(usize),
    ShowCell(usize, usize),
    Where,
    ListItems,
    Back(u32),
    Quit,
}

// Why a line is refused, in the order in which the reasons apply.
#[derive(Clone, Copy, Debug, PartialEq, Eq)]
pub(crate) enum Refusal {
    BadCommand,
    UnknownName,
    EdgeLimit,
    NoEarlierEdge,
}

// How many edges a session makes at most.
const MOST_EDGES: u32 = 10_000;

// How many bytes a line has at most.
const LONGEST_LINE: usize = 256;

// The words of a line, with single blanks between.
fn words_of<'a>(alloc: Global, text: &'a [u8]) -> Result<Vec<&'a [u8]>, AllocError>
    ensures { IfOk result (λ words. map (λ w. w.now) words.items ≡ slice_split (λ c. c == 32) text.now) }
{
    text.split(|byte| *byte == b' ').collect(alloc)
}

fn is_word(word: &[u8], text: &[u8]) -> bool
    ensures { result ≡ bytes_eq word.now text.now }
{
    word == text
}

fn is_empty_one(word: &[u8]) -> bool
    ensures { result ≡ is_empty_word word.now }
{
    word.is_empty()
}

fn is_any_empty(words: &[&[u8]]) -> bool
    ensures { result ≡ list_any (λ w. is_empty_word w.now) words.now }
{
    words.iter().any(|word| is_empty_one(word))
}

// Some word has no bytes.
#[tactic(none)]
fn has_empty_word(words: &[&[u8]]) -> bool
    ensures { result ≡ list_any is_empty_word (map (λ w. w.now) words.now) }
{
    is_any_empty(words)
}

// The place of the item of this name.
fn find_item(items: &[Item], name: &[u8]) -> Option<usize>
    ensures place { result ≡ item_place items.now name.now }
    ensures within { IfSome result (λ i. i < length items.now) }
{
    items.iter().position(|item| item.name.as_bytes() == name)
}

// The place of the array of this name, where it has a cell of this index.
fn find_cell(arrays: &[ArrayItem], name: &[u8], index: u64) -> Option<usize>
    ensures place { result ≡ cell_place arrays.now name.now index }
    ensures within { IfSome result (λ i. i < length arrays.now) }
    ensures index { IfSome result (λ i. (a : ArrayItem) → index < (slice_index_or arrays.now i a).depth) }
{
    arrays.iter().position(|array| array.name.as_bytes() == name && index < array.depth as u64)
}

fn step_of_count(edge: u32, count: Option<u64>) -> Result<Command, Refusal>
    requires { edge ≤ 10000 }
    ensures read { result ≡ step_of edge count }
    ensures shown { (items : List Item) (arrays : List ArrayItem) → IfOk result (IsShown items arrays) }
    ensures within { IfOk result (IsWithin edge) }
{
    let Some(count) = count else {
        return Err(Refusal::BadCommand);
    };
    if count > (MOST_EDGES - edge) as u64 {
        return Err(Refusal::EdgeLimit);
    }
    Ok(Command::Step(count as u32))
}

fn until_of_words(
    edge: u32,
    value: Option<u64>,
    count: Option<u64>,
    item: Option<usize>,
) -> Result<Command, Refusal>
    requires { edge ≤ 10000 }
    ensures read { result ≡ until_of edge value count item }
    ensures shown { (items : List Item) (arrays : List ArrayItem) → IfSome item (λ i. i < length items) → IfOk result (IsShown items arrays) }
    ensures within { IfOk result (IsWithin edge) }
{
    let Some(value) = value else {
        return Err(Refusal::BadCommand);
    };
    let Some(count) = count else {
        return Err(Refusal::BadCommand);
    };
    let Some(item) = item else {
        return Err(Refusal::UnknownName);
    };
    if count > (MOST_EDGES - edge) as u64 {
        return Err(Refusal::EdgeLimit);
    }
    Ok(Command::Until(item, value, count as u32))
}

fn back_of_count(edge: u32, count: Option<u64>) -> Result<Command, Refusal>
    ensures read { result ≡ back_of edge count }
    ensures shown { (items : List Item) (arrays : List ArrayItem) → IfOk result (IsShown items arrays) }
    ensures within { IfOk result (IsWithin edge) }
{
    let Some(count) = count else {
        return Err(Refusal::BadCommand);
    };
    if count > edge as u64 {
        return Err(Refusal::NoEarlierEdge);
    }
    Ok(Command::Back(count as u32))
}

fn cell_of_words(
    items: &[Item],
    arrays: &[ArrayItem],
    edge: u32,
    name: &[u8],
    index: Option<u64>,
) -> Result<Command, Refusal>
    ensures read { result ≡ cell_of arrays.now name.now index }
    ensures shown { IfOk result (IsShown items.now arrays.now) }
    ensures within { IfOk result (IsWithin edge) }
{
    let _ = items;
    let Some(index) = index else {
        return Err(Refusal::BadCommand);
    };
    match find_cell(arrays, name, index) {
        Some(array) => Ok(Command::ShowCell(array, index as usize)),
        None => Err(Refusal::UnknownName),
    }
}

fn item_of_word(
    items: &[Item],
    arrays: &[ArrayItem],
    edge: u32,
    name: &[u8],
) -> Result<Command, Refusal>
    ensures read { result ≡ item_of (item_place items.now name.now) }
    ensures shown { IfOk result (IsShown items.now arrays.now) }
    ensures within { IfOk result (IsWithin edge) }
{
    match find_item(items, name) {
        Some(item) => Ok(Command::ShowItem(item)),
        None => Err(Refusal::UnknownName),
    }
}

fn read_alone(
    items: &[Item],
    arrays: &[ArrayItem],
    edge: u32,
    verb: &[u8],
) -> Result<Command, Refusal>
    ensures read { result ≡ verb_alone verb.now }
    ensures shown { IfOk result (IsShown items.now arrays.now) }
    ensures within { IfOk result (IsWithin edge) }
{
    if is_word(verb, b"show") {
        return Ok(Command::Show);
    }
    if is_word(verb, b"where") {
        return Ok(Command::Where);
    }
    if is_word(verb, b"list") {
        return Ok(Command::ListItems);
    }
    if is_word(verb, b"quit") {
        return Ok(Command::Quit);
    }
    Err(Refusal::BadCommand)
}

fn read_with(
    items: &[Item],
    arrays: &[ArrayItem],
    edge: u32,
    verb: &[u8],
    word: &[u8],
) -> Result<Command, Refusal>
    requires { edge ≤ 10000 }
    ensures read { result ≡ verb_with items.now edge verb.now word.now }
    ensures shown { IfOk result (IsShown items.now arrays.now) }
    ensures within { IfOk result (IsWithin edge) }
{
    if is_word(verb, b"step") {
        return step_of_count(edge, read_number(word));
    }
    if is_word(verb, b"back") {
        return back_of_count(edge, read_number(word));
    }
    if is_word(verb, b"show") {
        return item_of_word(items, arrays, edge, word);
    }
    Err(Refusal::BadCommand)
}

fn read_cell(
    items: &[Item],
    arrays: &[ArrayItem],
    edge: u32,
    verb: &[u8],
    name: &[u8],
    index: &[u8],
) -> Result<Command, Refusal>
    ensures read { result ≡ verb_cell arrays.now verb.now name.now index.now }
    ensures shown { IfOk result (IsShown items.now arrays.now) }
    ensures within { IfOk result (IsWithin edge) }
{
    if is_word(verb, b"cell") {
        return cell_of_words(items, arrays, edge, name, read_number(index));
    }
    Err(Refusal::BadCommand)
}

fn read_until(
    items: &[Item],
    arrays: &[ArrayItem],
    edge: u32,
    verb: &[u8],
    name: &[u8],
    value: &[u8],
    count: &[u8],
) -> Result<Command, Refusal>
    requires { edge ≤ 10000 }
    ensures read { result ≡ verb_until items.now edge verb.now name.now value.now count.now }
    ensures shown { IfOk result (IsShown items.now arrays.now) }
    ensures within { IfOk result (IsWithin edge) }
{
    if is_word(verb, b"until") {
        let item = find_item(items, name);
        return until_of_words(edge, read_number(value), read_number(count), item);
    }
    Err(Refusal::BadCommand)
}

// What words of one or more bytes ask for.
fn read_words(
    items: &[Item],
    arrays: &[ArrayItem],
    edge: u32,
    words: &[&[u8]],
) -> Result<Command, Refusal>
    requires { edge ≤ 10000 }
    ensures read { result ≡ command_of_words items.now arrays.now edge (map (λ w. w.now) words.now) }
    ensures shown { IfOk result (IsShown items.now arrays.now) }
    ensures within { IfOk result (IsWithin edge) }
{
    match words {
        [verb] => read_alone(items, arrays, edge, verb),
        [verb, word] => read_with(items, arrays, edge, verb, word),
        [verb, name, index] => read_cell(items, arrays, edge, verb, name, index),
        [verb, name, value, count] => read_until(items, arrays, edge, verb, name, value, count),
        _ => Err(Refusal::BadCommand),
    }
}

// The line without a carriage return at its end.
fn line_text(line: &[u8]) -> &[u8]
    ensures { result.now ≡ strip_carriage_return line.now }
{
    match line {
        [text @ .., b'\r'] => text,
        _ => line,
    }
}

// What a text asks for.
fn read_text(
    alloc: Global,
    items: &[Item],
    arrays: &[ArrayItem],
    edge: u32,
    text: &[u8],
) -> Result<Result<Command, Refusal>, AllocError>
    requires { edge ≤ 10000 }
    ensures read { IfOk result (λ r. r ≡ command_of_text items.now arrays.now edge text.now) }
    ensures shown { IfOk result (λ r. IfOk r (IsShown items.now arrays.now)) }
    ensures within { IfOk result (λ r. IfOk r (IsWithin edge)) }
{
    if text.len() > LONGEST_LINE {
        return Ok(Err(Refusal::BadCommand));
    }
    let words = words_of(alloc, text)?;
    if has_empty_word(&words) {
        return Ok(Err(Refusal::BadCommand));
    }
    Ok(read_words(items, arrays, edge, &words))
}

// What a line asks for after so many edges.
pub(crate) fn read_command(
    alloc: Global,
    items: &[Item],
    arrays: &[ArrayItem],
    edge: u32,
    line: &[u8],
) -> Result<Result<Command, Refusal>, AllocError>
    requires { edge ≤ 10000 }
    ensures read { IfOk result (λ r. r ≡ command_of items.now arrays.now edge line.now) }
    ensures shown { IfOk result (λ r. IfOk r (IsShown items.now arrays.now)) }
    ensures within { IfOk result (λ r. IfOk r (IsWithin edge)) }
{
    read_text(alloc, items, arrays, edge, line_text(line))
}
