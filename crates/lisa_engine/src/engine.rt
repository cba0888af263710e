// Engines, by what their own definition gives after a list of pin values.
ghost use Rattle.std.specs.Prelude.{◌≡◌, ◌<◌, ◌∷◌, [], ◌++◌, List, ℕ, length, slice_index};
ghost use Rattle.lisa_engine.specs.State.{State, cells_of};
ghost use Rattle.lisa_engine.specs.Shape.{IsFitting, IsShaped, AreEntries, HaveWidths, HaveDistinctNames};
ghost use Rattle.lisa_engine.specs.Touches.{Tracks, TakesBack};
ghost use Rattle.lisa_engine.specs.Machines.{Machine};
ghost use Rattle.lisa_engine.specs.declared.parts.Item.{Item};
ghost use Rattle.lisa_engine.specs.declared.parts.ArrayItem.{ArrayItem};
ghost use Rattle.lisa_engine.specs.declared.parts.Touch.{Touch};

use crate::parts::{ArrayItem, Item, Touch};

/// A machine that is stepped edge by edge, with a definition of its own for its state after each list of pin values.
///
/// The present state is the definition's after the list `l` where `present` is `defined l`. No history is stored, so each
/// clause speaks of every such list. The calls take no memory and refuse nothing.
pub trait Engine {
    /// Its pins, the values that it shows and its arrays, each in order, and the state that its definition gives after a list
    /// of pin values, one entry for each edge.
    ghost machine: { Self → Machine };

    /// The state that it has now.
    ghost present: { Self → State };

    /// The touches of the last edge.
    ghost touch_list: { Self → List Touch };

    fn items(&self) -> &[Item]
        ensures { result.now ≡ (machine self.now).items };

    fn arrays(&self) -> &[ArrayItem]
        ensures { result.now ≡ (machine self.now).arrays };

    fn pins(&self) -> &[Item]
        ensures { result.now ≡ (machine self.now).pins };

    /// The present value of an item.
    fn value(&self, item: usize) -> u64
        requires { item < length (machine self.now).items }
        ensures { result ≡ slice_index (present self.now).items item };

    /// The present value of a cell.
    fn cell(&self, array: usize, index: usize) -> u64
        requires array_in_range { array < length (machine self.now).arrays }
        requires index_in_range { index < length (cells_of (present self.now) array) }
        ensures { result ≡ slice_index (cells_of (present self.now) array) index };

    /// Makes an edge with these values of the pins.
    fn edge(&mut self, pins: &[u64])
        requires { IsFitting (machine self.old).pins pins.now }
        ensures leads { (l : List (List ℕ)) → AreEntries (machine self.old).pins l → present self.old ≡ (machine self.old).defined l
            → present self.new ≡ (machine self.new).defined (l ++ pins.now ∷ []) }
        ensures touches { Tracks (machine self.old).arrays (present self.old).cells (present self.new).cells (touch_list self.new) }
        ensures machine { machine self.new ≡ machine self.old };

    /// The cells that the last edge wrote, in the order of its writes; none after `restart` and `retreat`.
    fn touched(&self) -> &[Touch]
        ensures { result.now ≡ touch_list self.now };

    /// Goes to the state after no edge.
    fn restart(&mut self)
        ensures first { present self.new ≡ (machine self.new).defined [] }
        ensures touches { touch_list self.new ≡ [] }
        ensures machine { machine self.new ≡ machine self.old };

    /// Takes back one edge, given the items before it and its touches.
    fn retreat(&mut self, items: &[u64], touches: &[Touch])
        requires { (l : List (List ℕ)) × (p : List ℕ)
            × TakesBack (machine self.old) (present self.old) items.now touches.now l p }
        ensures back { (l : List (List ℕ)) (p : List ℕ)
            → TakesBack (machine self.old) (present self.old) items.now touches.now l p
            → present self.new ≡ (machine self.new).defined l }
        ensures touches { touch_list self.new ≡ [] }
        ensures machine { machine self.new ≡ machine self.old };

    /// There is a value for each item and each cell, within its width.
    ghost shaped: { (engine : Self) → IsShaped (machine engine).items (machine engine).arrays (present engine) };

    /// So there is in the definition's state after every list of pin values.
    ghost defined_shaped: { (engine : Self) (l : List (List ℕ)) → AreEntries (machine engine).pins l
        → IsShaped (machine engine).items (machine engine).arrays ((machine engine).defined l) };

    /// Items, cells and pins have from 1 to 64 bits.
    ghost sized: { (engine : Self) → HaveWidths (machine engine).items (machine engine).arrays (machine engine).pins };

    /// No two items share a name, nor two arrays, nor two pins.
    ghost named: { (engine : Self) → HaveDistinctNames (machine engine).items (machine engine).arrays (machine engine).pins };
}
