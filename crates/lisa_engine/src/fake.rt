// An engine in memory, for tests.
ghost use Rattle.std.specs.Prelude.{◌≡◌, ◌≤◌, ℕ, List, [], ◌∷◌, length, take, All, IfOk};
ghost use Rattle.lisa_engine.specs.State.{State};
ghost use Rattle.lisa_engine.specs.Shape.{IsShaped, AreEntries, HaveWidths};
ghost use Rattle.lisa_engine.specs.Touches.{IsPlaced, put_back};
ghost use Rattle.lisa_engine.specs.Machines.{machine_of};
ghost use Rattle.lisa_engine.specs.MemStates.{mem_items, mem_arrays, mem_pins, mem_defined, mem_machine, mem_shaped, mem_named};

use crate::engine::Engine;
use crate::parts::{ArrayItem, Item, Touch};
use lisa_words::{Name, NoMemory};
use std::alloc::Global;

/// An engine in memory, for tests: the items `count` (8 bits) and `last` (4), the array `M` of 4 cells of 8 bits and the
/// pin `in` of 4 bits. An edge writes `count` and then the pin's value to cell `count % 4`, adds 1 to `count`, and keeps the
/// pin's value in `last`.
#[derive(Debug, Drop)]
pub struct MemEngine {
    items: Vec<Item>,
    arrays: Vec<ArrayItem>,
    pins: Vec<Item>,
    values: [u64; 2],
    cells: [u64; 4],
    touched: [Touch; 2],
    touches: usize,
    ghost has_items: { items.items ≡ mem_items },
    ghost has_arrays: { arrays.items ≡ mem_arrays },
    ghost has_pins: { pins.items ≡ mem_pins },
    ghost shape: { IsShaped mem_items mem_arrays (record { items = values; cells = cells ∷ [] }) },
    ghost shapes: { (l : List (List ℕ)) → AreEntries pins.items l → IsShaped items.items arrays.items (mem_defined l) },
    ghost sizes: { HaveWidths items.items arrays.items pins.items },
    ghost few: { touches ≤ 2 },
}

const NO_TOUCH: Touch = Touch {
    array: 0,
    index: 0,
    before: 0,
};

fn make_item(alloc: Global, name: &[u8], width: u32) -> Result<Item, NoMemory>
    ensures { IfOk result (λ item. item ≡ record { name = name.now; width = width }) }
{
    let name = Name::from_bytes(alloc, name)?;
    Ok(Item { name, width })
}

fn make_items(alloc: Global) -> Result<Vec<Item>, NoMemory>
    ensures { IfOk result (λ v. v.items ≡ mem_items) }
{
    let mut items = Vec::new(alloc);
    items.push(make_item(alloc, b"count", 8)?)?;
    items.push(make_item(alloc, b"last", 4)?)?;
    Ok(items)
}

fn make_arrays(alloc: Global) -> Result<Vec<ArrayItem>, NoMemory>
    ensures { IfOk result (λ v. v.items ≡ mem_arrays) }
{
    let mut arrays = Vec::new(alloc);
    let name = Name::from_bytes(alloc, b"M")?;
    arrays.push(ArrayItem {
        name,
        width: 8,
        depth: 4,
    })?;
    Ok(arrays)
}

fn make_pins(alloc: Global) -> Result<Vec<Item>, NoMemory>
    ensures { IfOk result (λ v. v.items ≡ mem_pins) }
{
    let mut pins = Vec::new(alloc);
    pins.push(make_item(alloc, b"in", 4)?)?;
    Ok(pins)
}

// The cells of one array with the touches' values put back, from the last touch to the first.
fn put_all_back(cells: &mut [u64], touches: &[Touch])
    requires { All (IsPlaced mem_arrays) touches.now × (length cells.old ≡ 4) }
    ensures { cells.new ∷ [] ≡ put_back touches.now (cells.old ∷ []) }
{
    let mut left = touches.len();
    while left > 0 {
        left -= 1;
        cells[touches[left].index as usize] = touches[left].before;
    }
}

impl MemEngine {
    /// The engine after no edge.
    pub fn make(alloc: Global) -> Result<MemEngine, NoMemory>
        ensures machine { IfOk result (λ e. ⟦<MemEngine as Engine>⟧.machine e ≡ mem_machine) }
        ensures first { IfOk result (λ e. ⟦<MemEngine as Engine>⟧.present e ≡ mem_defined []) }
    {
        let items = make_items(alloc)?;
        let arrays = make_arrays(alloc)?;
        let pins = make_pins(alloc)?;
        Ok(MemEngine {
            items,
            arrays,
            pins,
            values: [0; 2],
            cells: [0; 4],
            touched: [NO_TOUCH; 2],
            touches: 0,
        })
    }
}

impl Engine for MemEngine {
    ghost machine = { λ e. machine_of e.pins.items e.items.items e.arrays.items mem_defined };

    ghost present = { λ e. record { items = e.values; cells = e.cells ∷ [] } };

    ghost touch_list = { λ e. take e.touches e.touched };

    fn items(&self) -> &[Item] {
        &self.items
    }

    fn arrays(&self) -> &[ArrayItem] {
        &self.arrays
    }

    fn pins(&self) -> &[Item] {
        &self.pins
    }

    fn value(&self, item: usize) -> u64 {
        self.values[item]
    }

    fn cell(&self, _array: usize, index: usize) -> u64 {
        self.cells[index]
    }

    fn edge(&mut self, pins: &[u64]) {
        let [count, _] = self.values;
        let pin = pins[0];
        let index = count as usize % 4;
        let first = Touch {
            array: 0,
            index: index as u32,
            before: self.cells[index],
        };
        let second = Touch {
            array: 0,
            index: index as u32,
            before: count,
        };
        self.cells[index] = pin;
        self.values = [(count + 1) % 256, pin];
        self.touched = [first, second];
        self.touches = 2;
    }

    fn touched(&self) -> &[Touch] {
        &self.touched[..self.touches]
    }

    fn restart(&mut self) {
        self.values = [0; 2];
        self.cells = [0; 4];
        self.touches = 0;
    }

    fn retreat(&mut self, items: &[u64], touches: &[Touch]) {
        let mut cells = self.cells;
        put_all_back(&mut cells, touches);
        self.values = [items[0], items[1]];
        self.cells = cells;
        self.touches = 0;
    }

    ghost shaped = { λ e. mem_shaped e.has_items e.has_arrays e.shape };

    ghost defined_shaped = { λ e. e.shapes };

    ghost sized = { λ e. e.sizes };

    ghost named = { λ e. mem_named e.has_items e.has_arrays e.has_pins };
}
