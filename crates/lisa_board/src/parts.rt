// The devices of a board.

/// A timer, by the numbers of its item and its pin.
#[derive(Clone, Copy, Debug, PartialEq, Eq)]
pub struct Timer {
    /// The item from which the count is loaded.
    pub load: u32,
    /// The pin that is 1 in the edge in which the count becomes 0.
    pub pin: u32,
}

/// A console, by the numbers of its items and pins.
#[derive(Clone, Copy, Debug, PartialEq, Eq)]
pub struct Console {
    /// The item whose lowest 8 bits are printed.
    pub shown: u32,
    /// The item whose changes print a byte.
    pub strobe: u32,
    /// The pin that has the next byte of the input.
    pub byte: u32,
    /// The pin that is 1 while a byte is left.
    pub valid: u32,
    /// The item whose changes take a byte.
    pub taken: u32,
}
