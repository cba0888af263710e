// What may be said at a place of a form.
ghost use Rattle.std.specs.Prelude.{◌≡◌, ◌≤◌, ◌-◌, option_map, length};
ghost use Rattle.std.specs.List.{All};
ghost use Rattle.instruction_texts.specs.Shapes.{IsSized, whole, upper};
ghost use Rattle.instruction_texts.specs.Moves.{step_of, sizes, first_of, second_of, negative_of, first_step, second_step, is_last, step, Mark, RunOf};

use crate::matching::{half, ones};
use crate::places::{Move, Pending, Place, Run, Said};
use crate::shapes::{Ending, Shape};

fn whole(hex: bool, width: u32) -> Ending
    requires { (1 ≤ width) × (width ≤ 64) }
    ensures { result ≡ whole hex width }
{
    Ending::Number {
        hex,
        positive: false,
        high: ones(width),
    }
}

fn upper(width: u32) -> Ending
    requires { (1 ≤ width) × (width ≤ 64) }
    ensures { result ≡ upper width }
{
    Ending::Number {
        hex: false,
        positive: false,
        high: half(width) - 1,
    }
}

fn sizes(high: u64) -> Ending
    ensures { result ≡ sizes high }
{
    Ending::Number {
        hex: false,
        positive: true,
        high,
    }
}

fn mark<'a>(sign: u8, shape: usize, pending: Pending) -> Move<'a>
    ensures { step_of result ≡ step (Mark sign) shape pending }
{
    Move {
        said: Said::Mark(sign),
        next: Place { shape, pending },
    }
}

fn run<'a>(prefix: &'a [u8], ending: Ending, shape: usize, pending: Pending) -> Move<'a>
    ensures { step_of result ≡ step (RunOf prefix.now ending) shape pending }
{
    Move {
        said: Said::Run(Run { prefix, ending }),
        next: Place { shape, pending },
    }
}

// What may be said at a piece, of which a number isn't negative; `behind` is the number of the next piece.
fn first_of<'a>(behind: usize, shape: &'a Shape) -> Move<'a>
    requires { IsSized shape.now }
    ensures { step_of result ≡ first_of behind shape.now }
{
    match shape {
        Shape::Other(sign) => mark(*sign, behind, Pending::Nothing),
        Shape::Literal(prefix) => run(prefix.as_bytes(), Ending::Plain, behind, Pending::Nothing),
        Shape::Unsigned { hex, prefix, width } => run(
            prefix.as_bytes(),
            whole(*hex, *width),
            behind,
            Pending::Nothing,
        ),
        Shape::Signed { prefix, width } => run(
            prefix.as_bytes(),
            upper(*width),
            behind,
            Pending::Nothing,
        ),
    }
}

fn negative_of<'a>(behind: usize, prefix: &'a [u8], high: u64) -> Move<'a>
    ensures { step_of result ≡ negative_of behind prefix.now high }
{
    if prefix.is_empty() {
        mark(b'-', behind, Pending::Digits(high))
    } else {
        run(prefix, Ending::Plain, behind, Pending::Minus(high))
    }
}

// How a negative number begins.
fn second_of<'a>(behind: usize, shape: &'a Shape) -> Option<Move<'a>>
    requires { IsSized shape.now }
    ensures { option_map step_of result ≡ second_of behind shape.now }
{
    match shape {
        Shape::Signed { prefix, width } => Some(negative_of(
            behind,
            prefix.as_bytes(),
            half(*width),
        )),
        _ => None,
    }
}

// What may be said at a place.
#[tactic(auto, using(std::proofs::lemmas::Option::slice_get_read, std::proofs::lemmas::Option::slice_get_past))]
pub fn first_move<'a>(shapes: &'a [Shape], place: Place) -> Option<Move<'a>>
    requires { All IsSized shapes.now }
    ensures { option_map step_of result ≡ first_step shapes.now place }
{
    match place.pending {
        Pending::Minus(high) => Some(mark(b'-', place.shape, Pending::Digits(high))),
        Pending::Digits(high) => Some(run(b"", sizes(high), place.shape, Pending::Nothing)),
        Pending::Nothing => {
            if place.shape < shapes.len() {
                Some(first_of(place.shape + 1, &shapes[place.shape]))
            } else {
                None
            }
        }
    }
}

// What else may be said there.
#[tactic(auto, using(std::proofs::lemmas::Option::slice_get_read, std::proofs::lemmas::Option::slice_get_past))]
pub fn second_move<'a>(shapes: &'a [Shape], place: Place) -> Option<Move<'a>>
    requires { All IsSized shapes.now }
    ensures { option_map step_of result ≡ second_step shapes.now place }
{
    match place.pending {
        Pending::Nothing => {
            if place.shape < shapes.len() {
                second_of(place.shape + 1, &shapes[place.shape])
            } else {
                None
            }
        }
        _ => None,
    }
}

// Whether a text may end there.
pub fn is_last(count: usize, place: Place) -> bool
    ensures { result ≡ is_last count place }
{
    match place.pending {
        Pending::Nothing => place.shape >= count,
        _ => false,
    }
}
