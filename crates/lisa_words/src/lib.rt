//! Words of 1 to 64 bits and their arithmetic, operators of two operands, names, the digits of numbers, and what in a text is
//! a blank, a comment or a name.
//!
//! `specs/Words.antt` says what the operations on words answer: each is its arithmetic on whole numbers without bound,
//! reduced modulo 2 to the power of the width.
#![tactic(auto)]

mod arithmetic;
mod binary;
mod bitwise;
mod bytes;
mod digits;
mod gaps;
mod names;
mod numerals;
mod words;

pub use arithmetic::{add, cut, less, mul, sub, widen};
pub use binary::{Operator, level};
pub use bitwise::{and, not, or, shl, shr, xor};
pub use bytes::{is_blank, is_digit, is_hexadecimal, is_letter, is_printable, is_text, is_word};
pub use digits::{decimal, hex};
pub use gaps::{Gap, leading_gap};
pub use names::{Name, NoMemory};
pub use numerals::{canonical_decimal, canonical_hex, decimal_value, hex_value};
pub use words::{Kind, Word};
