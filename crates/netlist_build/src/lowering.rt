// From expressions and steps to wires.
ghost use Rattle.std.specs.Prelude.{◌≡◌, ◌≤◌, ◌%◌, ◌^◌, IfOk, OnOk, length, reverse, slice_index_or};
ghost use Rattle.step_program.specs.Programs.{expr_tree, move_of, program_tree};
ghost use Rattle.step_program.specs.Effects.{width};
ghost use Rattle.netlist_wires.specs.Wiring.{share, behind, load, nothing, refit, changed, settled, is_zero, keeps_right, keeps_left, reaches, shifts_out, combined, lower, given_once, given, gone, gone_all, begun_going};
ghost use Rattle.netlist_build.specs.Symbolic.{sym_of, first, made, going};

use crate::symbols::{Operand, Symbols};
use crate::widths::{array_width, item_width, one_width, temp_width, two_width};
use indexmap::IndexSet;
use netlist_wires::keys::{Body, Flat, Key, Write};
use std::alloc::{AllocError, Global};
use step_program::{OneOp, Step, StepExpr, StepProgram, Target, TwoOp};

// The wire of a key, a new one only where there is none.
fn share(keys: &mut IndexSet<Key>, width: u32, body: Body) -> Result<Flat, AllocError>
    ensures flat { IfOk result (λ flat. flat ≡ (share (first ⟦<Key as PartialEq>⟧.eq) width body keys.old.keys).flat) }
    ensures keys { OnOk result (keys.new.keys ≡ (share (first ⟦<Key as PartialEq>⟧.eq) width body keys.old.keys).keys) }
{
    let (wire, _) = keys.insert_full(Key { width, body })?;
    Ok(Flat::OfWire(wire))
}

// The cell that was read, behind one more write, where that is of the same array.
fn behind(
    keys: &mut IndexSet<Key>,
    width: u32,
    same: bool,
    write: Write,
    index: Flat,
    found: Flat,
) -> Result<Flat, AllocError>
    ensures flat { IfOk result (λ flat. flat ≡ (behind (first ⟦<Key as PartialEq>⟧.eq) width same write index (made found keys.old.keys)).flat) }
    ensures keys { OnOk result (keys.new.keys ≡ (behind (first ⟦<Key as PartialEq>⟧.eq) width same write index (made found keys.old.keys)).keys) }
{
    if !same {
        return Ok(found);
    }
    let here = share(keys, 1, Body::Operate(TwoOp::Equal, write.index, index))?;
    let taken = share(keys, width, Body::Select(write.guard, write.value, found))?;
    share(keys, width, Body::Select(here, taken, found))
}

// The cell of an array behind the writes, the oldest first.
fn load(
    program: &StepProgram,
    keys: &mut IndexSet<Key>,
    array: u32,
    writes: &[Write],
    index: Flat,
) -> Result<Flat, AllocError>
    ensures flat { IfOk result (λ flat. flat ≡ (load (first ⟦<Key as PartialEq>⟧.eq) (program_tree program.now) array (reverse writes.now) index keys.old.keys).flat) }
    ensures keys { OnOk result (keys.new.keys ≡ (load (first ⟦<Key as PartialEq>⟧.eq) (program_tree program.now) array (reverse writes.now) index keys.old.keys).keys) }
{
    let width = array_width(&program.arrays, array);
    let mut found = share(keys, width, Body::Load(array, index))?;
    for write in writes {
        found = behind(keys, width, write.array == array, *write, index, found)?;
    }
    Ok(found)
}

// A number cut or extended to a width.
fn refit_number(bits: u64, to: u32) -> u64
    ensures { result ≡ bits % 2 ^ to }
{
    if to >= 64 {
        return bits;
    }
    bits % (1 << to)
}

// An operand at another width, or at the same: where it is no number, what is told is made of it.
fn refit(
    keys: &mut IndexSet<Key>,
    same: bool,
    to: u32,
    body: Body,
    flat: Flat,
) -> Result<Flat, AllocError>
    ensures flat { IfOk result (λ out. out ≡ (refit (first ⟦<Key as PartialEq>⟧.eq) same to body flat keys.old.keys).flat) }
    ensures keys { OnOk result (keys.new.keys ≡ (refit (first ⟦<Key as PartialEq>⟧.eq) same to body flat keys.old.keys).keys) }
{
    if same {
        return Ok(flat);
    }
    match flat {
        Flat::Fixed(_, bits) => Ok(Flat::Fixed(to, refit_number(bits, to))),
        Flat::OfItem(_) | Flat::OfPin(_) | Flat::OfWire(_) => share(keys, to, body),
    }
}

// What an operator makes of an operand.
fn change(keys: &mut IndexSet<Key>, one: OneOp, a: Operand) -> Result<Flat, AllocError>
    ensures flat { IfOk result (λ flat. flat ≡ (changed (first ⟦<Key as PartialEq>⟧.eq) one a.width a.flat keys.old.keys).flat) }
    ensures keys { OnOk result (keys.new.keys ≡ (changed (first ⟦<Key as PartialEq>⟧.eq) one a.width a.flat keys.old.keys).keys) }
{
    match one {
        OneOp::Not => share(keys, a.width, Body::Inverse(a.flat)),
        OneOp::Cut(narrow) => {
            let cut = Body::Lowest(narrow.saturating_sub(1), a.flat);
            refit(keys, narrow == a.width, narrow, cut, a.flat)
        }
        OneOp::Widen(wide) => {
            let widened = Body::Padded(wide.saturating_sub(a.width), a.flat);
            refit(keys, wide == a.width, wide, widened, a.flat)
        }
    }
}

fn now(flats: &[Flat], place: u32) -> Flat
    ensures { result ≡ slice_index_or flats.now place nothing }
{
    match flats.get(place as usize) {
        Some(flat) => *flat,
        None => Flat::Fixed(0, 0),
    }
}

// A number or a wire, where the operand may be a name that stands for something else.
fn settle(keys: &mut IndexSet<Key>, width: u32, flat: Flat) -> Result<Flat, AllocError>
    ensures flat { IfOk result (λ settled_flat. settled_flat ≡ (settled (first ⟦<Key as PartialEq>⟧.eq) width flat keys.old.keys).flat) }
    ensures keys { OnOk result (keys.new.keys ≡ (settled (first ⟦<Key as PartialEq>⟧.eq) width flat keys.old.keys).keys) }
{
    match flat {
        Flat::Fixed(_, _) | Flat::OfWire(_) => Ok(flat),
        Flat::OfItem(_) | Flat::OfPin(_) => share(keys, width, Body::Copied(flat)),
    }
}

fn is_zero(flat: Flat) -> bool
    ensures { result ≡ is_zero flat }
{
    match flat {
        Flat::Fixed(_, bits) => bits == 0,
        Flat::OfItem(_) | Flat::OfPin(_) | Flat::OfWire(_) => false,
    }
}

// Whether an operator leaves its right operand as it is behind 0.
fn keeps_right(two: TwoOp) -> bool
    ensures { result ≡ keeps_right two }
{
    match two {
        TwoOp::Add | TwoOp::Or | TwoOp::Xor => true,
        TwoOp::Sub | TwoOp::Mul | TwoOp::And | TwoOp::Shl => false,
        TwoOp::Shr | TwoOp::Equal | TwoOp::Less => false,
    }
}

// Whether an operator leaves its left operand as it is before 0.
fn keeps_left(two: TwoOp) -> bool
    ensures { result ≡ keeps_left two }
{
    match two {
        TwoOp::Add | TwoOp::Sub | TwoOp::Or | TwoOp::Xor => true,
        TwoOp::Shl | TwoOp::Shr => true,
        TwoOp::Mul | TwoOp::And | TwoOp::Equal | TwoOp::Less => false,
    }
}

// Whether an operand is a number that is no smaller than a width.
fn reaches(width: u32, flat: Flat) -> bool
    ensures { result ≡ reaches width flat }
{
    match flat {
        Flat::Fixed(_, bits) => width as u64 <= bits,
        Flat::OfItem(_) | Flat::OfPin(_) | Flat::OfWire(_) => false,
    }
}

// Whether an operator of a width shifts each bit of its left operand out.
fn shifts_out(two: TwoOp, width: u32, right: Flat) -> bool
    ensures { result ≡ shifts_out two width right }
{
    match two {
        TwoOp::Shl | TwoOp::Shr => reaches(width, right),
        TwoOp::Add | TwoOp::Sub | TwoOp::Mul | TwoOp::And => false,
        TwoOp::Or | TwoOp::Xor | TwoOp::Equal | TwoOp::Less => false,
    }
}

// What an operator makes of two operands.
fn combine(
    keys: &mut IndexSet<Key>,
    two: TwoOp,
    width: u32,
    left: Flat,
    right: Flat,
) -> Result<Flat, AllocError>
    ensures flat { IfOk result (λ flat. flat ≡ (combined (first ⟦<Key as PartialEq>⟧.eq) two width left right keys.old.keys).flat) }
    ensures keys { OnOk result (keys.new.keys ≡ (combined (first ⟦<Key as PartialEq>⟧.eq) two width left right keys.old.keys).keys) }
{
    if shifts_out(two, width, right) {
        return Ok(Flat::Fixed(width, 0));
    }
    if keeps_right(two) && is_zero(left) {
        return settle(keys, width, right);
    }
    if keeps_left(two) && is_zero(right) {
        return settle(keys, width, left);
    }
    share(keys, width, Body::Operate(two, left, right))
}

// The operand that an expression is.
fn lower(
    program: &StepProgram,
    symbols: &Symbols,
    keys: &mut IndexSet<Key>,
    e: &StepExpr,
) -> Result<Operand, AllocError>
    ensures flat { IfOk result (λ o. o.flat ≡ (lower (first ⟦<Key as PartialEq>⟧.eq) (program_tree program.now) (sym_of symbols.now) (expr_tree e.now) keys.old.keys).flat) }
    ensures keys { OnOk result (keys.new.keys ≡ (lower (first ⟦<Key as PartialEq>⟧.eq) (program_tree program.now) (sym_of symbols.now) (expr_tree e.now) keys.old.keys).keys) }
    ensures width { IfOk result (λ o. o.width ≡ width (program_tree program.now) (expr_tree e.now)) }
{
    match e {
        StepExpr::Const(word) => Ok(Operand {
            flat: Flat::Fixed(word.width, word.bits),
            width: word.width,
        }),
        StepExpr::Item(item) => Ok(Operand {
            flat: now(&symbols.items, *item),
            width: item_width(&program.items, *item),
        }),
        StepExpr::Before(item) => Ok(Operand {
            flat: Flat::OfItem(*item),
            width: item_width(&program.items, *item),
        }),
        StepExpr::Pin(pin) => Ok(Operand {
            flat: Flat::OfPin(*pin),
            width: item_width(&program.pins, *pin),
        }),
        StepExpr::Temp(temp) => Ok(Operand {
            flat: now(&symbols.temps, *temp),
            width: temp_width(&program.temps, *temp),
        }),
        StepExpr::Cell(array, index) => {
            let index = lower(program, symbols, keys, index)?;
            let flat = load(program, keys, *array, &symbols.writes, index.flat)?;
            let width = array_width(&program.arrays, *array);
            Ok(Operand { flat, width })
        }
        StepExpr::One(one, a) => {
            let a = lower(program, symbols, keys, a)?;
            let width = one_width(*one, a.width);
            let flat = change(keys, *one, a)?;
            Ok(Operand { flat, width })
        }
        StepExpr::Two(two, a, b) => {
            let left = lower(program, symbols, keys, a)?;
            let right = lower(program, symbols, keys, b)?;
            let width = two_width(*two, left.width);
            let flat = combine(keys, *two, width, left.flat, right.flat)?;
            Ok(Operand { flat, width })
        }
        StepExpr::Choose(test, this, other) => {
            let test = lower(program, symbols, keys, test)?;
            let this = lower(program, symbols, keys, this)?;
            let other = lower(program, symbols, keys, other)?;
            let width = this.width;
            let flat = share(keys, width, Body::Select(test.flat, this.flat, other.flat))?;
            Ok(Operand { flat, width })
        }
    }
}

// What a target holds under a guard that is a number.
fn give_once(
    keys: &mut IndexSet<Key>,
    zero: bool,
    value: Operand,
    old: Flat,
) -> Result<Flat, AllocError>
    ensures flat { IfOk result (λ flat. flat ≡ (given_once (first ⟦<Key as PartialEq>⟧.eq) value.width zero value.flat old keys.old.keys).flat) }
    ensures keys { OnOk result (keys.new.keys ≡ (given_once (first ⟦<Key as PartialEq>⟧.eq) value.width zero value.flat old keys.old.keys).keys) }
{
    if zero {
        return Ok(old);
    }
    settle(keys, value.width, value.flat)
}

// What a target holds once it is given a value where the guard isn't 0.
fn give(
    keys: &mut IndexSet<Key>,
    guard: Flat,
    value: Operand,
    old: Flat,
) -> Result<Flat, AllocError>
    ensures flat { IfOk result (λ flat. flat ≡ (given (first ⟦<Key as PartialEq>⟧.eq) value.width guard value.flat old keys.old.keys).flat) }
    ensures keys { OnOk result (keys.new.keys ≡ (given (first ⟦<Key as PartialEq>⟧.eq) value.width guard value.flat old keys.old.keys).keys) }
{
    match guard {
        Flat::Fixed(_, bits) => give_once(keys, bits == 0, value, old),
        Flat::OfItem(_) | Flat::OfPin(_) | Flat::OfWire(_) => {
            share(keys, value.width, Body::Select(guard, value.flat, old))
        }
    }
}

// Takes one step.
fn take(
    program: &StepProgram,
    symbols: &mut Symbols,
    keys: &mut IndexSet<Key>,
    step: &Step,
) -> Result<(), AllocError>
    ensures sym { OnOk result (sym_of symbols.new ≡ (gone (first ⟦<Key as PartialEq>⟧.eq) (program_tree program.now) (going (sym_of symbols.old) keys.old.keys) (move_of step.now)).sym) }
    ensures keys { OnOk result (keys.new.keys ≡ (gone (first ⟦<Key as PartialEq>⟧.eq) (program_tree program.now) (going (sym_of symbols.old) keys.old.keys) (move_of step.now)).keys) }
{
    let guard = lower(program, symbols, keys, &step.guard)?.flat;
    let value = lower(program, symbols, keys, &step.value)?;
    match &step.target {
        Target::Item(item) => {
            let old = now(&symbols.items, *item);
            let new = give(keys, guard, value, old)?;
            if let Some(flat) = symbols.items.get_mut(*item as usize) {
                *flat = new;
            }
            Ok(())
        }
        Target::Temp(temp) => {
            let old = now(&symbols.temps, *temp);
            let new = give(keys, guard, value, old)?;
            if let Some(flat) = symbols.temps.get_mut(*temp as usize) {
                *flat = new;
            }
            Ok(())
        }
        Target::Cell(array, index) => {
            let index = lower(program, symbols, keys, index)?.flat;
            symbols.writes.push(Write {
                array: *array,
                guard,
                index,
                value: value.flat,
            })?;
            Ok(())
        }
    }
}

// Takes all steps.
pub fn take_all(
    program: &StepProgram,
    symbols: &mut Symbols,
    keys: &mut IndexSet<Key>,
) -> Result<(), AllocError>
    ensures sym { OnOk result (sym_of symbols.new ≡ (gone_all (first ⟦<Key as PartialEq>⟧.eq) (program_tree program.now) (going (sym_of symbols.old) keys.old.keys) (program_tree program.now).moves).sym) }
    ensures keys { OnOk result (keys.new.keys ≡ (gone_all (first ⟦<Key as PartialEq>⟧.eq) (program_tree program.now) (going (sym_of symbols.old) keys.old.keys) (program_tree program.now).moves).keys) }
{
    for step in &program.steps {
        take(program, symbols, keys, step)?;
    }
    Ok(())
}

// The items and temps as an edge begins.
#[tactic(auto, using(crate::proofs::Owned::own_more))]
pub fn begun(alloc: Global, program: &StepProgram) -> Result<Symbols, AllocError>
    requires { length program.now.items.items ≤ 8192 }
    ensures { IfOk result (λ symbols. sym_of symbols ≡ (begun_going (program_tree program.now)).sym) }
{
    let mut items = Vec::new(alloc);
    for (index, _item) in program.items.iter().enumerate() {
        items.push(Flat::OfItem(index as u32))?;
    }
    let mut temps = Vec::new(alloc);
    for width in &program.temps {
        temps.push(Flat::Fixed(*width, 0))?;
    }
    Ok(Symbols {
        items,
        temps,
        writes: Vec::new(alloc),
    })
}
