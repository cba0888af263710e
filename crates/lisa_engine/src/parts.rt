// What an engine has.
use lisa_words::Name;

/// A register or another value of one word.
#[derive(Debug, Drop)]
pub struct Item {
    pub name: Name,
    pub width: u32,
}

/// An array of words.
#[derive(Debug, Drop)]
pub struct ArrayItem {
    pub name: Name,
    pub width: u32,
    pub depth: u32,
}

/// A cell that an edge wrote, with its value before that write.
#[derive(Clone, Copy, Debug, PartialEq, Eq)]
pub struct Touch {
    pub array: u32,
    pub index: u32,
    pub before: u64,
}

/// A pin, by its place, and its new value.
#[derive(Clone, Copy, Debug)]
pub struct Setting {
    pub pin: usize,
    pub value: u64,
}
