//! That an object's lines and its entries are one.

ghost use Rattle.std.specs.Prelude.{◌≡◌, List};
ghost use Rattle.lisa_object.specs.Objects.{PlainObject};
ghost use Rattle.lisa_object.specs.ObjectRules.{IsObject};
ghost use Rattle.placed_programs.specs.Entries.{Entry, PlainCell, lines_of, entries_of};

/// The lines of an object are those of its entries. A law: the function does nothing.
pub fn lines_are_entries()
    ensures { (o : PlainObject) → IsObject o → o.lines ≡ lines_of (entries_of o.lines) }
{}

/// The entries of the lines of entries are these entries. A law: the function does nothing.
pub fn entries_are_read_back()
    ensures { (es : List (Entry PlainCell)) → entries_of (lines_of es) ≡ es }
{}
