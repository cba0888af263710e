// The programs.
ghost use Rattle.std.specs.Prelude.{◌<◌, ◌^◌};

use crate::parts::{always, array, cell, constant, item, one, put, set, sum, two};
use lisa_engine::Item;
use lisa_words::NoMemory;
use std::alloc::Global;
use step_program::{OneOp, Step, StepExpr, StepProgram, Target, TwoOp};

// A program of items alone, which are 0 at first.
fn plain(alloc: Global, items: Vec<Item>, steps: Vec<Step>) -> Result<StepProgram, NoMemory> {
    let mut first = Vec::new(alloc);
    for _ in 0..items.len() {
        first.push(0)?;
    }
    Ok(StepProgram {
        items,
        arrays: Vec::new(alloc),
        pins: Vec::new(alloc),
        first,
        temps: Vec::new(alloc),
        steps,
    })
}

/// `M[0] := x + 1`, `temp := M[0]`, `x := temp + temp`
pub fn through_a_cell(alloc: Global) -> Result<StepProgram, NoMemory> {
    let mut steps = Vec::new(alloc);
    let more = sum(alloc, StepExpr::Item(0), constant(8, 1))?;
    steps.push(put(0, constant(1, 0), more))?;
    steps.push(Step {
        guard: always(),
        target: Target::Temp(0),
        value: cell(alloc, 0, constant(1, 0))?,
    })?;
    steps.push(set(0, sum(alloc, StepExpr::Temp(0), StepExpr::Temp(0))?))?;
    let mut items = Vec::new(alloc);
    items.push(item(alloc, b"x", 8)?)?;
    let mut program = plain(alloc, items, steps)?;
    program.arrays.push(array(alloc, b"M", 8)?)?;
    program.temps.push(8)?;
    Ok(program)
}

// `target := a + 1`
fn add_one(alloc: Global, target: u32) -> Result<Step, NoMemory> {
    let more = sum(alloc, StepExpr::Item(0), constant(8, 1))?;
    Ok(set(target, more))
}

/// `b := a + 1`, `c := a + 1`
pub fn double_sum(alloc: Global) -> Result<StepProgram, NoMemory> {
    let mut items = Vec::new(alloc);
    for name in [b"a", b"b", b"c"] {
        items.push(item(alloc, name, 8)?)?;
    }
    let mut steps = Vec::new(alloc);
    steps.push(add_one(alloc, 1)?)?;
    steps.push(add_one(alloc, 2)?)?;
    plain(alloc, items, steps)
}

/// `a` is what `b` was as the edge began, `b` what `a` was, `c := a`, and `d` is what `a` was and what `b` is now; `a` is 1 and `b` 2 at
/// first.
pub fn swap(alloc: Global) -> Result<StepProgram, NoMemory> {
    let mut items = Vec::new(alloc);
    for name in [b"a", b"b", b"c", b"d"] {
        items.push(item(alloc, name, 8)?)?;
    }
    let mut steps = Vec::new(alloc);
    steps.push(set(0, StepExpr::Before(1)))?;
    steps.push(set(1, StepExpr::Before(0)))?;
    steps.push(set(2, StepExpr::Item(0)))?;
    steps.push(set(3, sum(alloc, StepExpr::Before(0), StepExpr::Item(1))?))?;
    let mut program = plain(alloc, items, steps)?;
    program.first.clear();
    for value in [1, 2, 0, 0] {
        program.first.push(value)?;
    }
    Ok(program)
}

/// `M[0] := 1`, `N[0] := 2`, `M[0] := 3` where `go` is 1, `x := M[0]`, `y := N[0]`, `y := 9` where `go` is 0
pub fn guarded_writes(alloc: Global) -> Result<StepProgram, NoMemory> {
    let mut steps = Vec::new(alloc);
    steps.push(put(0, constant(1, 0), constant(8, 1)))?;
    steps.push(put(1, constant(1, 0), constant(8, 2)))?;
    steps.push(Step {
        guard: StepExpr::Pin(0),
        target: Target::Cell(0, constant(1, 0)),
        value: constant(8, 3),
    })?;
    steps.push(set(0, cell(alloc, 0, constant(1, 0))?))?;
    steps.push(set(1, cell(alloc, 1, constant(1, 0))?))?;
    steps.push(Step {
        guard: one(alloc, OneOp::Not, StepExpr::Pin(0))?,
        target: Target::Item(1),
        value: constant(8, 9),
    })?;
    let mut items = Vec::new(alloc);
    items.push(item(alloc, b"x", 8)?)?;
    items.push(item(alloc, b"y", 8)?)?;
    let mut program = plain(alloc, items, steps)?;
    program.arrays.push(array(alloc, b"M", 8)?)?;
    program.arrays.push(array(alloc, b"N", 8)?)?;
    program.pins.push(item(alloc, b"go", 1)?)?;
    Ok(program)
}

fn word() -> StepExpr {
    StepExpr::Item(0)
}

fn before() -> StepExpr {
    StepExpr::Before(0)
}

// The steps of `narrow_and_wide`.
fn narrow_and_wide_steps(alloc: Global) -> Result<Vec<Step>, NoMemory> {
    let mut steps = Vec::new(alloc);
    let times = two(
        alloc,
        TwoOp::Mul,
        word(),
        constant(64, 6_364_136_223_846_793_005),
    )?;
    steps.push(set(
        0,
        sum(alloc, times, constant(64, 1_442_695_040_888_963_407))?,
    ))?;
    steps.push(set(1, sum(alloc, StepExpr::Item(1), constant(1, 1))?))?;
    steps.push(set(2, two(alloc, TwoOp::Shr, word(), constant(7, 63))?))?;
    let lowest = one(alloc, OneOp::Widen(64), one(alloc, OneOp::Cut(1), word())?)?;
    steps.push(set(3, two(alloc, TwoOp::Shl, lowest, constant(7, 63))?))?;
    steps.push(set(4, two(alloc, TwoOp::Shl, word(), constant(7, 64))?))?;
    steps.push(set(5, two(alloc, TwoOp::Less, word(), before())?))?;
    let back = sum(alloc, two(alloc, TwoOp::Sub, before(), word())?, word())?;
    steps.push(set(6, two(alloc, TwoOp::Equal, back, before())?))?;
    steps.push(put(0, StepExpr::Item(1), one(alloc, OneOp::Not, word())?))?;
    Ok(steps)
}

/// Arithmetic at the least and the greatest width: `word := word * 6364136223846793005 + 1442695040888963407`, `flag := flag + 1`,
/// `high` is the highest bit of `word`, `low` its lowest bit at the highest place, `past := word << 64`, `less` says whether `word` is less
/// than before, `same` whether what was subtracted and added again is the same, and `W[flag]` is the complement of `word`. `word` is
/// 2^64 - 1 at first, and `flag` 1.
pub fn narrow_and_wide(alloc: Global) -> Result<StepProgram, NoMemory> {
    let mut items = Vec::new(alloc);
    items.push(item(alloc, b"word", 64)?)?;
    items.push(item(alloc, b"flag", 1)?)?;
    items.push(item(alloc, b"high", 64)?)?;
    items.push(item(alloc, b"low", 64)?)?;
    items.push(item(alloc, b"past", 64)?)?;
    items.push(item(alloc, b"less", 1)?)?;
    items.push(item(alloc, b"same", 1)?)?;
    let steps = narrow_and_wide_steps(alloc)?;
    let mut program = plain(alloc, items, steps)?;
    program.arrays.push(array(alloc, b"W", 64)?)?;
    program.first.clear();
    for value in [u64::MAX, 1, 0, 0, 0, 0, 0] {
        program.first.push(value)?;
    }
    Ok(program)
}

/// The printable bytes, but for the blank.
pub fn printable_bytes(alloc: Global) -> Result<Vec<u8>, NoMemory> {
    let mut bytes = Vec::new(alloc);
    for byte in 33..127 {
        bytes.push(byte)?;
    }
    Ok(bytes)
}

/// An item for each printable byte, whose name that byte is alone and which takes its number. One item's name has all of them, as have
/// those of an array and a pin: the item takes what the pin has, and cell 1 one more. The pin's name ends with `p`, and the array's with `m`.
pub fn printable_names(alloc: Global) -> Result<StepProgram, NoMemory> {
    let mut all = printable_bytes(alloc)?;
    let mut items = Vec::new(alloc);
    let mut steps = Vec::new(alloc);
    for byte in 33..127 {
        items.push(item(alloc, &[byte], 8)?)?;
        steps.push(set((byte - 33) as u32, constant(8, byte as u64)))?;
    }
    steps.push(set(94, StepExpr::Pin(0)))?;
    let more = sum(alloc, StepExpr::Item(94), constant(8, 1))?;
    steps.push(put(0, constant(1, 1), more))?;
    items.push(item(alloc, &all, 8)?)?;
    let mut program = plain(alloc, items, steps)?;
    all.push(b'p')?;
    program.pins.push(item(alloc, &all, 8)?)?;
    let _ = all.pop();
    all.push(b'm')?;
    program.arrays.push(array(alloc, &all, 8)?)?;
    Ok(program)
}

/// How many steps a long program has.
#[derive(Clone, Copy, Debug)]
pub struct Lines(pub u32);

/// `a := a + 1` so many times, four nodes each.
pub fn long_chain(alloc: Global, lines: Lines) -> Result<StepProgram, NoMemory> {
    let mut items = Vec::new(alloc);
    items.push(item(alloc, b"a", 8)?)?;
    let mut steps = Vec::new(alloc);
    for _ in 0..lines.0 {
        steps.push(add_one(alloc, 0)?)?;
    }
    plain(alloc, items, steps)
}

// `x < n ? y + n : y ^ (the low half of x)`, in 12 nodes
fn mixed(alloc: Global, x: u32, y: u32, number: u64) -> Result<StepExpr, NoMemory>
    requires { number < 2 ^ 32 }
{
    let test = two(alloc, TwoOp::Less, StepExpr::Item(x), constant(32, number))?;
    let this = sum(alloc, StepExpr::Item(y), constant(32, number))?;
    let half = one(
        alloc,
        OneOp::Widen(32),
        one(alloc, OneOp::Cut(16), StepExpr::Item(x))?,
    )?;
    let other = two(alloc, TwoOp::Xor, StepExpr::Item(y), half)?;
    let test = Box::new(alloc, test)?;
    let this = Box::new(alloc, this)?;
    let other = Box::new(alloc, other)?;
    Ok(StepExpr::Choose(test, this, other))
}

/// So many steps on eight items of 32 bits, each of 13 nodes and with a number of its own.
pub fn mixed_steps(alloc: Global, lines: Lines) -> Result<StepProgram, NoMemory> {
    let mut items = Vec::new(alloc);
    for name in [b"a", b"b", b"c", b"d", b"e", b"f", b"g", b"h"] {
        items.push(item(alloc, name, 32)?)?;
    }
    let mut steps = Vec::new(alloc);
    for line in 0..lines.0 {
        let value = mixed(alloc, line % 8, (line / 8) % 8, line as u64)?;
        steps.push(set((line / 8) % 8, value))?;
    }
    plain(alloc, items, steps)
}
