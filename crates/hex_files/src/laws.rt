//! What files mean, and that what is printed is read again.

ghost use Rattle.std.specs.Prelude.{◌≡◌, List, Ok};
ghost use Rattle.lisa_engine.specs.Memory.{Memory};
ghost use Rattle.hex_files.specs.Maps.{Write, values_of, HoldsMap};
ghost use Rattle.hex_files.specs.Printable.{IsPrintable, array_of};
ghost use Rattle.hex_files.specs.MemhText.{memh_text};
ghost use Rattle.hex_files.specs.MemhReading.{memh_of};
ghost use Rattle.hex_files.specs.HexText.{hex_text};
ghost use Rattle.hex_files.specs.HexReading.{hex_of};

/// The values of writes are those of their map, later writes over earlier ones, 0 where there is none, up to the last place that
/// is written. A law: the function does nothing.
pub fn values_hold_the_map()
    ensures { (ws : List Write) → HoldsMap ws (values_of ws) }
{}

/// The text of a memory for `$readmemh` is read as that memory. A law: the function does nothing.
pub fn memh_is_read_back()
    ensures { (memory : Memory) → IsPrintable memory → memh_of (array_of memory) (memh_text memory) ≡ Ok memory }
{}

/// The text of a memory as an Intel HEX file is read as that memory. A law: the function does nothing.
pub fn hex_is_read_back()
    ensures { (memory : Memory) → IsPrintable memory → hex_of (array_of memory) (hex_text memory) ≡ Ok memory }
{}
