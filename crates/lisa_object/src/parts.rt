// Objects and images with the digests of their descriptions.
use asm_source::Sum;
use lisa_engine::Image;
use lisa_words::Name;

/// What the assembler makes of a source.
#[derive(Debug, PartialEq, Eq, Drop)]
pub struct Object {
    /// The SHA-256 digest of the description's canonical text.
    pub digest: [u8; 32],
    /// The lines, as the source gave them.
    pub lines: Vec<ObjectLine>,
}

/// A line of an object.
#[derive(Debug, PartialEq, Eq, Drop)]
pub enum ObjectLine {
    /// What follows goes to this memory, whose cells are so wide.
    Section(Name, u32),
    /// So many cells of 0.
    Space(u32),
    /// A label.
    Label(Name),
    /// A name for a number.
    Equ(Name, i128),
    /// A definition of this name is seen by others.
    Global(Name),
    /// A cell.
    Cell(u64),
    /// A sum whose value goes to bits of the cell before it.
    Fix {
        lsb: u32,
        width: u32,
        kind: FixKind,
        sum: Sum,
    },
}

/// What values a sum may have.
#[derive(Clone, Copy, Debug, PartialEq, Eq)]
pub enum FixKind {
    /// `u`: those of an unsigned field.
    Unsigned,
    /// `s`: those of a signed field.
    Signed,
    /// `w`: those of a whole cell.
    Whole,
}

/// An image, and the digest of the description that it is for.
#[derive(Debug, Drop)]
pub struct Stamped {
    /// The SHA-256 digest of the description's canonical text.
    pub digest: [u8; 32],
    /// The image.
    pub image: Image,
}
