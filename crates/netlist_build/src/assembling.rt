// From wires to the parts of a module.
ghost use Rattle.std.specs.Prelude.{◌≡◌, ℕ, List, IfOk, OnOk, All, map, slice_index_or, ◌++◌, ◌≤◌, [], length};
ghost use Rattle.lisa_engine.specs.Shape.{IsFitting};
ghost use Rattle.verilog_text.specs.Trees.{ActionTrees, vexpr_tree, member_tree, setting_tree, action_then};
ghost use Rattle.step_program.specs.Programs.{program_tree};
ghost use Rattle.step_program.specs.WellFormed.{IsDeclared, IsWidth};
ghost use Rattle.netlist_wires.specs.Wiring.{operator_of, named, lowest, padded, body_tree, wire_name, wires_from, set_items, put_cell, first_settings, clock_name, reg_members, array_members};
ghost use Rattle.netlist_build.specs.Assembled.{IsWord, HasWords, IsWrite, actions_then, puts};

use lisa_engine::{ArrayItem, Item};
use lisa_words::{Name, NoMemory, Operator, Word, decimal};
use netlist_wires::keys::{Body, Flat, Key, Write};
use std::alloc::{AllocError, Global};
use step_program::{StepProgram, TwoOp};
use verilog_text::{Action, Member, VExpr, VOne};

// The name of an item or pin, or an empty one.
fn item_name(alloc: Global, items: &[Item], place: u32) -> Result<Name, AllocError>
    ensures { IfOk result (λ name. name ≡ slice_index_or (map (λ item. item.name) items.now) place []) }
{
    match items.get(place as usize) {
        Some(item) => item.name.clone(),
        None => Ok(Name::from_vec(Vec::new(alloc))),
    }
}

fn array_name(alloc: Global, arrays: &[ArrayItem], place: u32) -> Result<Name, AllocError>
    ensures { IfOk result (λ name. name ≡ slice_index_or (map (λ array. array.name) arrays.now) place []) }
{
    match arrays.get(place as usize) {
        Some(array) => array.name.clone(),
        None => Ok(Name::from_vec(Vec::new(alloc))),
    }
}

fn wire_name(alloc: Global, wire: usize) -> Result<Name, AllocError>
    ensures { IfOk result (λ name. name ≡ wire_name wire) }
{
    let mut bytes = Vec::from_slice(alloc, b"wire.")?;
    let mut digits = [0; 20];
    let count = decimal(wire as u64, &mut digits);
    bytes.extend_from_slice(&digits[..count])?;
    Ok(Name::from_vec(bytes))
}

// An operand as an expression.
fn named(alloc: Global, program: &StepProgram, flat: Flat) -> Result<VExpr, AllocError>
    requires { IsWord flat }
    ensures { IfOk result (λ e. vexpr_tree e ≡ named (program_tree program.now) flat) }
{
    match flat {
        Flat::Fixed(width, bits) => Ok(VExpr::Number(Word { bits, width })),
        Flat::OfItem(item) => Ok(VExpr::Named(item_name(alloc, &program.items, item)?)),
        Flat::OfPin(pin) => Ok(VExpr::Named(item_name(alloc, &program.pins, pin)?)),
        Flat::OfWire(wire) => Ok(VExpr::Named(wire_name(alloc, wire)?)),
    }
}

fn operator_of(two: TwoOp) -> Operator
    ensures { result ≡ operator_of two }
{
    match two {
        TwoOp::Add => Operator::Add,
        TwoOp::Sub => Operator::Sub,
        TwoOp::Mul => Operator::Mul,
        TwoOp::And => Operator::And,
        TwoOp::Or => Operator::Or,
        TwoOp::Xor => Operator::Xor,
        TwoOp::Shl => Operator::Left,
        TwoOp::Shr => Operator::Right,
        TwoOp::Equal => Operator::Equal,
        TwoOp::Less => Operator::Less,
    }
}

// The bits of an operand from one down.
fn lowest(alloc: Global, program: &StepProgram, high: u32, flat: Flat) -> Result<VExpr, AllocError>
    requires { IsWord flat }
    ensures { IfOk result (λ e. vexpr_tree e ≡ lowest (program_tree program.now) high flat) }
{
    match flat {
        Flat::Fixed(width, bits) => Ok(VExpr::Number(Word { bits, width })),
        Flat::OfItem(item) => Ok(VExpr::Bits(item_name(alloc, &program.items, item)?, high, 0)),
        Flat::OfPin(pin) => Ok(VExpr::Bits(item_name(alloc, &program.pins, pin)?, high, 0)),
        Flat::OfWire(wire) => Ok(VExpr::Bits(wire_name(alloc, wire)?, high, 0)),
    }
}

// An operand behind so many zeros.
fn padded(alloc: Global, program: &StepProgram, zeros: u32, flat: Flat) -> Result<VExpr, AllocError>
    requires zeros { IsWidth zeros }
    requires word { IsWord flat }
    ensures { IfOk result (λ e. vexpr_tree e ≡ padded (program_tree program.now) zeros flat) }
{
    let mut parts = Vec::new(alloc);
    parts.push(VExpr::Number(Word {
        bits: 0,
        width: zeros,
    }))?;
    parts.push(named(alloc, program, flat)?)?;
    Ok(VExpr::Join(parts))
}

// What a wire carries as an expression.
fn written(alloc: Global, program: &StepProgram, body: Body) -> Result<VExpr, AllocError>
    requires { HasWords body }
    ensures { IfOk result (λ e. vexpr_tree e ≡ body_tree (program_tree program.now) body) }
{
    match body {
        Body::Copied(f) => named(alloc, program, f),
        Body::Lowest(high, f) => lowest(alloc, program, high, f),
        Body::Padded(zeros, f) => padded(alloc, program, zeros, f),
        Body::Inverse(f) => {
            let a = Box::new(alloc, named(alloc, program, f)?)?;
            Ok(VExpr::One(VOne::Complement, a))
        }
        Body::Load(array, f) => {
            let name = array_name(alloc, &program.arrays, array)?;
            let index = Box::new(alloc, named(alloc, program, f)?)?;
            Ok(VExpr::Cell(name, index))
        }
        Body::Operate(two, f, g) => {
            let a = Box::new(alloc, named(alloc, program, f)?)?;
            let b = Box::new(alloc, named(alloc, program, g)?)?;
            Ok(VExpr::Two(operator_of(two), a, b))
        }
        Body::Select(c, f, g) => {
            let test = Box::new(alloc, named(alloc, program, c)?)?;
            let this = Box::new(alloc, named(alloc, program, f)?)?;
            let other = Box::new(alloc, named(alloc, program, g)?)?;
            Ok(VExpr::Choose(test, this, other))
        }
    }
}

// Puts the wires behind the members.
pub fn put_wires(
    alloc: Global,
    program: &StepProgram,
    keys: &[Key],
    members: &mut Vec<Member>,
) -> Result<(), AllocError>
    requires { All (λ key. HasWords key.body) keys.now }
    ensures { OnOk result (map (member_tree clock_name) members.new.items ≡ map (member_tree clock_name) members.old.items ++ wires_from (program_tree program.now) 0 keys.now) }
{
    for (wire, key) in keys.iter().enumerate() {
        let item = Item {
            name: wire_name(alloc, wire)?,
            width: key.width,
        };
        let value = written(alloc, program, key.body)?;
        members.push(Member::Wire(item, value))?;
    }
    Ok(())
}

fn copied(item: &Item) -> Result<Item, AllocError>
    ensures { IfOk result (λ copy. copy ≡ item.now) }
{
    Ok(Item {
        name: item.name.clone()?,
        width: item.width,
    })
}

fn copied_array(array: &ArrayItem) -> Result<ArrayItem, AllocError>
    ensures { IfOk result (λ copy. copy ≡ array.now) }
{
    Ok(ArrayItem {
        name: array.name.clone()?,
        width: array.width,
        depth: array.depth,
    })
}

pub fn copied_items(alloc: Global, items: &[Item]) -> Result<Vec<Item>, AllocError>
    ensures { IfOk result (λ copies. copies.items ≡ items.now) }
{
    let mut copies = Vec::new(alloc);
    for item in items {
        copies.push(copied(item)?)?;
    }
    Ok(copies)
}

// Puts the items behind the members.
pub fn put_items(items: &[Item], members: &mut Vec<Member>) -> Result<(), AllocError>
    ensures { OnOk result (map (member_tree clock_name) members.new.items ≡ map (member_tree clock_name) members.old.items ++ reg_members items.now) }
{
    for item in items {
        members.push(Member::Reg(copied(item)?))?;
    }
    Ok(())
}

pub fn put_arrays(arrays: &[ArrayItem], members: &mut Vec<Member>) -> Result<(), AllocError>
    ensures { OnOk result (map (member_tree clock_name) members.new.items ≡ map (member_tree clock_name) members.old.items ++ array_members arrays.now) }
{
    for array in arrays {
        members.push(Member::Array(copied_array(array)?))?;
    }
    Ok(())
}

// The first values of the items.
pub fn first_settings(
    alloc: Global,
    items: &[Item],
    first: &[u64],
) -> Result<Vec<(Name, Word)>, AllocError>
    requires fits { IsFitting items.now first.now }
    requires declared { All IsDeclared items.now }
    ensures { IfOk result (λ settings. map setting_tree settings.items ≡ first_settings items.now first.now) }
{
    let mut settings = Vec::new(alloc);
    for (place, item) in items.iter().enumerate() {
        let word = Word {
            bits: first[place],
            width: item.width,
        };
        settings.push((item.name.clone()?, word))?;
    }
    Ok(settings)
}

// Every item takes what it is now.
pub fn put_sets(
    alloc: Global,
    program: &StepProgram,
    flats: &[Flat],
    actions: &mut Vec<Action>,
) -> Result<(), AllocError>
    requires words { All IsWord flats.now }
    requires few { length flats.now ≤ 8192 }
    ensures { OnOk result ((rest : ActionTrees) → actions_then actions.new.items rest ≡ actions_then actions.old.items (set_items (program_tree program.now) 0 flats.now rest)) }
{
    for (place, flat) in flats.iter().enumerate() {
        let name = item_name(alloc, &program.items, place as u32)?;
        let value = named(alloc, program, *flat)?;
        actions.push(Action::Set(name, None, value))?;
    }
    Ok(())
}

// The write of a cell where its guard isn't 0.
fn put_write(alloc: Global, program: &StepProgram, write: &Write) -> Result<Action, AllocError>
    requires { IsWrite write.now }
    ensures { IfOk result (λ action. (rest : ActionTrees) → action_then action rest ≡ put_cell (program_tree program.now) write.now rest) }
{
    let name = array_name(alloc, &program.arrays, write.array)?;
    let index = named(alloc, program, write.index)?;
    let value = named(alloc, program, write.value)?;
    let mut this = Vec::new(alloc);
    this.push(Action::Set(name, Some(index), value))?;
    let test = named(alloc, program, write.guard)?;
    Ok(Action::If(test, this, Vec::new(alloc)))
}

// The writes in their order.
pub fn put_writes(
    alloc: Global,
    program: &StepProgram,
    writes: &[Write],
    actions: &mut Vec<Action>,
) -> Result<(), AllocError>
    requires { All IsWrite writes.now }
    ensures { OnOk result ((rest : ActionTrees) → actions_then actions.new.items rest ≡ actions_then actions.old.items (puts (program_tree program.now) writes.now rest)) }
{
    for write in writes {
        actions.push(put_write(alloc, program, write)?)?;
    }
    Ok(())
}
