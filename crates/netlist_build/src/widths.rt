// Widths of what an expression names.
ghost use Rattle.std.specs.Prelude.{◌≡◌, map, slice_index};
ghost use Rattle.step_program.specs.Effects.{one_width, two_width};

use lisa_engine::{ArrayItem, Item};
use step_program::{OneOp, TwoOp};

pub fn item_width(items: &[Item], place: u32) -> u32
    ensures { result ≡ slice_index (map (λ item. item.width) items.now) place }
{
    match items.get(place as usize) {
        Some(item) => item.width,
        None => 0,
    }
}

pub fn array_width(arrays: &[ArrayItem], place: u32) -> u32
    ensures { result ≡ slice_index (map (λ array. array.width) arrays.now) place }
{
    match arrays.get(place as usize) {
        Some(array) => array.width,
        None => 0,
    }
}

pub fn temp_width(temps: &[u32], place: u32) -> u32
    ensures { result ≡ slice_index temps.now place }
{
    match temps.get(place as usize) {
        Some(width) => *width,
        None => 0,
    }
}

pub fn one_width(one: OneOp, width: u32) -> u32
    ensures { result ≡ one_width one width }
{
    match one {
        OneOp::Not => width,
        OneOp::Cut(narrow) => narrow,
        OneOp::Widen(wide) => wide,
    }
}

pub fn two_width(two: TwoOp, width: u32) -> u32
    ensures { result ≡ two_width two width }
{
    match two {
        TwoOp::Equal | TwoOp::Less => 1,
        TwoOp::Add | TwoOp::Sub | TwoOp::Mul | TwoOp::And => width,
        TwoOp::Or | TwoOp::Xor | TwoOp::Shl | TwoOp::Shr => width,
    }
}
