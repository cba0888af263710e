// What is left of a text, and its words.
ghost use Rattle.std.specs.Prelude.{◌+◌, ◌<◌, ◌^◌, length};

use std::marker::Model;

/// A word, and the place of its first byte. Contracts see the record of both.
#[derive(Drop)]
pub struct Word<'a> {
    pub at: u32,
    pub text: &'a [u8],
}

impl<'a> Model for Word<'a> {
    ghost use Rattle.vcd_trace.specs.VcdWords.{Placed, word_at};

    ghost Value = { Placed };

    ghost view = { λ w. word_at w.at w.text.now };
}

/// What is left of a text, and the place where it begins.
#[derive(Clone, Copy)]
pub struct Words<'a> {
    pub at: u32,
    pub rest: &'a [u8],
    ghost within: { at + length rest.now < 2 ^ 32 },
}
