// Names with their places and widths.
ghost use Rattle.std.specs.Prelude.{◌≡◌, ◌++◌, ◌∷◌, [], OnOk, nat_eq, slice_index};
ghost use Rattle.std.specs.List.{position_or_len};
ghost use Rattle.std.specs.Cmp.Lexicographic.{pointwise};
ghost use Rattle.name_tables.specs.Keys.{insert_key};

use lisa_words::Name;
use name_tables::NameSet;
use std::alloc::{AllocError, Global};

/// Names in order, each with a width.
#[derive(Drop)]
pub struct Names {
    pub set: NameSet,
    pub widths: Vec<u32>,
}

impl Names {
    pub fn new(alloc: Global) -> Names
        ensures names { result.set.keys.items ≡ [] }
        ensures widths { result.widths.items ≡ [] }
    {
        Names {
            set: NameSet::new(alloc),
            widths: Vec::new(alloc),
        }
    }

    /// Puts a name that isn't there behind the others.
    pub fn declare(&mut self, name: &Name, width: u32) -> Result<(), AllocError>
        ensures names { OnOk result (self.new.set.keys.items ≡ insert_key self.old.set.keys.items name.now) }
        ensures widths { OnOk result (self.new.widths.items ≡ self.old.widths.items ++ width ∷ []) }
    {
        self.widths.push(width)?;
        self.set.insert(name)?;
        Ok(())
    }

    /// The place of a name, or the number of names.
    pub fn place(&self, name: &Name) -> usize
        ensures { result ≡ position_or_len (pointwise nat_eq name.now) self.now.set.keys.items }
    {
        self.set.place(name)
    }

    /// The width of a name, or 0.
    pub fn width(&self, name: &Name) -> u32
        ensures { result ≡ slice_index self.now.widths.items (position_or_len (pointwise nat_eq name.now) self.now.set.keys.items) }
    {
        self.widths.get(self.place(name)).copied().unwrap_or(0)
    }
}
