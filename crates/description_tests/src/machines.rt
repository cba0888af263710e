// What machines show.
ghost use Rattle.std.specs.Prelude.{◌≡◌, ◌<◌, length};

use description_tables::Tables;
use lisa_machine::{Machine, check};
use lisa_reader::read_description;
use lisa_words::NoMemory;
use machine_parts::{count_reset, count_reset_nodes, first_values, registers_have_first_values};
use std::alloc::{AllocError, Global};
use std::test::Fail;

// The names of arrays, each with its width and depth, and a star behind that of a memory.
fn put_arrays(alloc: Global, machine: &Machine, text: &mut String) -> Result<(), AllocError> {
    let all = machine.arrays();
    for index in 0..all.len() {
        let array = &all[index];
        let is_memory = index < 0xffff_ffff && machine.is_memory(index as u32);
        let mark = if is_memory { "*" } else { "" };
        let one = format!(in alloc; " {}{mark} {} {}", array.name, array.width, array.depth)?;
        text.push_str(one.as_str())?;
    }
    Ok(())
}

// The names of pins, each with its width.
fn put_pins(alloc: Global, machine: &Machine, text: &mut String) -> Result<(), AllocError> {
    for pin in machine.pins() {
        text.push_str(format!(in alloc; " {} {}", pin.name, pin.width)?.as_str())?;
    }
    Ok(())
}

// What a register holds first, where there is one of this number.
fn first(alloc: Global, machine: &Machine, register: u32) -> Result<Option<u64>, NoMemory> {
    let tables = Tables::make(alloc, machine.description())?;
    let statements = count_reset(alloc, &tables)?;
    let nodes = count_reset_nodes(alloc, &tables)?;
    let all = first_values(alloc, &tables)?;
    registers_have_first_values();
    if statements > 4096 || nodes > 4_194_304 || register as usize >= all.len() {
        return Ok(None);
    }
    Ok(Some(machine.first(register)))
}

// What the first registers hold first.
fn put_first(alloc: Global, machine: &Machine, text: &mut String) -> Result<(), NoMemory> {
    for register in 0..16 {
        if let Some(value) = first(alloc, machine, register)? {
            text.push_str(format!(in alloc; " {value:#x}")?.as_str())?;
        }
    }
    Ok(())
}

// The machine of a text of at most 10,000 bytes.
fn machine(alloc: Global, text: &[u8]) -> Result<Machine, Fail> {
    if text.len() > 10_000 {
        return Err(Fail::from("too long a text"));
    }
    Ok(check(alloc, read_description(alloc, text)?)?)
}

// The arrays, pins and first values of a text's machine, each behind a colon.
fn told(alloc: Global, text: &[u8]) -> Result<String, Fail> {
    let machine = machine(alloc, text)?;
    let mut told = String::from_str(alloc, "arrays:")?;
    put_arrays(alloc, &machine, &mut told)?;
    told.push_str(" pins:")?;
    put_pins(alloc, &machine, &mut told)?;
    told.push_str(" first:")?;
    put_first(alloc, &machine, &mut told)?;
    Ok(told)
}

const ARRAYS: &[u8] = b"
RESOURCE { REGISTER uint4 pc; REGISTER uint8 R[2]; PROGRAM_MEMORY uint8 prog[16]; PIN uint1 hold; PIN int4 step; }
OPERATION main { }
";

// A block, a loop and a choice.
const LOOP: &[u8] = b"
RESOURCE { REGISTER int16 a; REGISTER uint8 b; REGISTER uint8 c; }
OPERATION main { }
OPERATION reset { BEHAVIOR {
  { int16 t = (int8)200; a = t; }
  b = (uint8)300;
  for (uint8 i = 0; i < 6; i = i + 2) b = b + i;
  if (b == 50) ; else b = 0;
} }
";

// Operands meet at the greater width, and signed where both are.
const OPERANDS: &[u8] = b"
RESOURCE {
  REGISTER int8 a; REGISTER uint16 b; REGISTER int16 c; REGISTER uint16 sum; REGISTER uint1 less;
  REGISTER int16 both; REGISTER uint1 below; REGISTER uint16 this; REGISTER uint16 other;
}
OPERATION main { }
OPERATION reset { BEHAVIOR {
  a = (int8)200; b = 1; c = 1;
  sum = a + b; less = a < b;
  both = a + c; below = a < c;
  this = 1 ? a : b; other = 0 ? a : b;
} }
";

// A shift keeps the type of its left operand, and a literal takes the kind of the other operand.
const SHIFTS: &[u8] = b"
RESOURCE {
  REGISTER int8 a; REGISTER uint16 by; REGISTER int8 right; REGISTER int8 left; REGISTER int8 far;
  REGISTER int8 n; REGISTER int16 more; REGISTER uint16 cut;
}
OPERATION main { }
OPERATION reset { BEHAVIOR {
  a = (int8)0x96; by = 3;
  right = a >> by; left = a << by; far = a >> 200;
  n = (int8)200; more = n + 200; cut = 200 + 100;
} }
";

#[test]
fn arrays_pins_and_first_values_are_shown(rt: HostRuntime) -> Result<(), Fail> {
    let cases = [
        (
            ARRAYS,
            "arrays: R 8 2 prog* 8 16 pins: hold 1 step 4 first: 0x0",
        ),
        (LOOP, "arrays: pins: first: 0xffc8 0x32 0x0"),
        (
            OPERANDS,
            "arrays: pins: first: 0xc8 0x1 0x1 0xffc9 0x0 0xffc9 0x1 0xffc8 0x1",
        ),
        (
            SHIFTS,
            "arrays: pins: first: 0x96 0x3 0xf2 0xb0 0xff 0xc8 0x90 0x2c",
        ),
    ];
    for (text, expected) in cases {
        assert_eq!(rt; told(rt.alloc(), text)?.as_str(), expected);
    }
    Ok(())
}
