//! The place of an item.

/// Where an item of a state has its value.
#[derive(Clone, Copy, Debug, PartialEq, Eq)]
pub enum ItemPlace {
    /// A register, by its number among registers.
    Register(u32),
    /// A field of the boundary behind the stage of the first number, by its number among fields.
    Field(u8, u32),
    /// The word of the stage of this number.
    Word(u8),
    /// The bit of the occurrence of the second number in the stage of the first.
    Bit(u8, u32),
}
