// The parts of a dump.
use std::marker::Model;

/// A variable that is declared. Contracts see the record of its fields.
#[derive(Drop)]
pub struct Declaration<'a> {
    pub code: &'a [u8],
    pub name: &'a [u8],
    pub width: u64,
}

impl<'a> Model for Declaration<'a> {
    ghost use Rattle.vcd_trace.specs.Written.{Variable};

    ghost Value = { Variable };

    ghost view = { λ d. record { code = d.code.now; name = d.name.now; width = d.width } };
}

/// A code gets a value, or one of 2^64 or more. Contracts see the record of the fields.
#[derive(Drop)]
pub struct NewValue<'a> {
    pub at: u32,
    pub code: &'a [u8],
    pub value: Option<u64>,
}

impl<'a> Model for NewValue<'a> {
    ghost use Rattle.vcd_trace.specs.Written.{Change};

    ghost Value = { Change };

    ghost view = { λ c. record { at = c.at; code = c.code.now; value = c.value } };
}

/// A time, and the place where it stands.
#[derive(Clone, Copy, Debug)]
pub struct Moment {
    pub at: u32,
    pub time: u64,
}

/// What happens behind the declarations.
#[derive(Drop)]
pub enum Event<'a> {
    Time(Moment),
    Change(NewValue<'a>),
}

/// A part of a dump.
#[derive(Drop)]
pub enum Part<'a> {
    /// What is skipped among the declarations.
    Note,
    /// What is skipped anywhere.
    Comment,
    /// A scope begins.
    Opens,
    /// The innermost scope ends.
    Closes,
    Declares(Declaration<'a>),
    /// The declarations end.
    Definitions,
    /// A mark begins.
    Begins,
    /// A mark ends.
    Ends,
    Happens(Event<'a>),
}
