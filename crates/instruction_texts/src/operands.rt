// What a line gives for the numbers of a form.
use asm_source::Sum;

/// What stands in a line for a number of a form.
#[derive(Clone, Copy, Debug)]
pub enum Operand<'a> {
    /// The bits of the number that is written there.
    Value(u64),
    /// The sum of an `@` operand.
    Sum(&'a Sum),
}
