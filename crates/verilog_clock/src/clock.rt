// The clock of a module.
ghost use Rattle.std.specs.Prelude.{◌≡◌, ◌≤◌, ◌+◌, Err, Some, None, ℕ, List, [], IfOk, OnOk, length, map};
ghost use Rattle.std.specs.Vec.{vec_len, vec_capacity};
ghost use Rattle.lisa_engine.specs.Images.{IsImage, missing_memory};
ghost use Rattle.lisa_engine.specs.Machines.{machine_of};
ghost use Rattle.lisa_engine.specs.Shape.{IsShaped, HaveWidths, HaveDistinctNames};
ghost use Rattle.verilog_text.specs.Trees.{module_tree};
ghost use Rattle.verilog_text.specs.Clocked.{regs, arrays as all_arrays, v_first, v_state};
ghost use Rattle.verilog_text.specs.Clockable.{IsClockable};
ghost use Rattle.verilog_clock.specs.Compiled.{rows, acts_most};
ghost use Rattle.verilog_clock.specs.Named.{Runs};
ghost use Rattle.verilog_clock.specs.Writes.{state_of, shaped_as};

use crate::code::{Act, Net};
use crate::edges::cell_at;
use crate::firsts::{arrays_of, first_values, regs_of};
use crate::rooms::{Compiled, Room, compile_module};
use crate::scope::Scope;
use crate::steps::run_edge;
use crate::writes::{copy_rows, take_back};
use lisa_engine::{ArrayItem, Engine, Image, Item, MakeFault, Touch, first_cells};
use std::alloc::Global;
use verilog_text::Module;

/// A module that is clocked edge by edge. Its items and arrays are the module's regs in order of declaration, and its pins are the
/// inputs after the clock.
#[derive(Drop)]
pub struct Clock<'a> {
    module: &'a Module,
    image: &'a Image,
    items: Vec<Item>,
    arrays: Vec<ArrayItem>,
    nets: Vec<Net>,
    acts: Vec<Act>,
    firsts: Vec<u64>,
    first_rows: Vec<Vec<u64>>,
    values: Vec<u64>,
    cells: Vec<Vec<u64>>,
    room: Room,
    ghost item_regs: { items.items ≡ regs (module_tree module.now).members },
    ghost array_regs: { arrays.items ≡ all_arrays (module_tree module.now).members },
    ghost named: { HaveDistinctNames items.items arrays.items module.now.inputs.items },
    ghost sizes: { HaveWidths items.items arrays.items module.now.inputs.items },
    ghost few: { length arrays.items ≤ 1024 },
    ghost runs: { Runs (module_tree module.now) nets.items acts.items },
    ghost begins: { state_of firsts.items (rows first_rows.items) ≡ v_first (module_tree module.now) image.now },
    ghost first_shape: { IsShaped (regs (module_tree module.now).members) (all_arrays (module_tree module.now).members) (state_of firsts.items (rows first_rows.items)) },
    ghost shapes: { (l : List (List ℕ)) → IsShaped items.items arrays.items (v_state (module_tree module.now) image.now l) },
    ghost shape: { IsShaped (regs (module_tree module.now).members) (all_arrays (module_tree module.now).members) (state_of values.items (rows cells.items)) },
    ghost settled_room: { vec_len items + vec_len module.now.inputs + vec_len nets ≤ vec_capacity room.settled },
    ghost updates_room: { acts_most acts.items ≤ vec_capacity room.updates },
    ghost touches_room: { acts_most acts.items ≤ vec_capacity room.touches },
}

impl<'a> Clock<'a> {
    /// The clock of a module after no edge. All the room that it needs is taken here.
    pub fn make(alloc: Global, module: &'a Module, image: &'a Image) -> Result<Clock<'a>, MakeFault>
        requires module { IsClockable (module_tree module.now) }
        requires image { IsImage image.now }
        ensures machine { IfOk result (λ c. ⟦<Clock<'a> as Engine>⟧.machine c
            ≡ machine_of (module_tree module.now).inputs (regs (module_tree module.now).members) (all_arrays (module_tree module.now).members)
            (v_state (module_tree module.now) image.now)) }
        ensures first { IfOk result (λ c. ⟦<Clock<'a> as Engine>⟧.present c ≡ v_state (module_tree module.now) image.now []) }
        ensures found { OnOk result (missing_memory (all_arrays (module_tree module.now).members) image.now ≡ None) }
        ensures missing { (name : List ℕ) → result ≡ Err (MakeFault.NoSuchMemory name) → missing_memory (all_arrays (module_tree module.now).members) image.now ≡ Some name }
    {
        let arrays = arrays_of(alloc, module)?;
        let cells = first_cells(alloc, &arrays, image)?;
        let first_rows = first_cells(alloc, &arrays, image)?;
        let items = regs_of(alloc, module)?;
        let scope = Scope::of(alloc, module)?;
        let firsts = first_values(alloc, &scope, items.len())?;
        let values = Vec::from_slice(alloc, &firsts)?;
        let Compiled { nets, acts, room } = compile_module(alloc, &scope, items.len())?;
        Ok(Clock {
            module,
            image,
            items,
            arrays,
            nets,
            acts,
            firsts,
            first_rows,
            values,
            cells,
            room,
        })
    }
}

impl<'a> Engine for Clock<'a> {
    ghost machine = { λ c. machine_of c.module.now.inputs.items c.items.items c.arrays.items (v_state (module_tree c.module.now) c.image.now) };

    ghost present = { λ c. state_of c.values.items (rows c.cells.items) };

    ghost touch_list = { λ c. c.room.touches.items };

    fn items(&self) -> &[Item] {
        &self.items
    }

    fn arrays(&self) -> &[ArrayItem] {
        &self.arrays
    }

    fn pins(&self) -> &[Item] {
        &self.module.inputs
    }

    fn value(&self, item: usize) -> u64 {
        self.values[item]
    }

    fn cell(&self, array: usize, index: usize) -> u64 {
        cell_at(&self.cells, array, index as u64)
    }

    fn edge(&mut self, pins: &[u64]) {
        run_edge(
            &self.nets,
            &self.acts,
            &self.arrays,
            pins,
            &mut self.values,
            &mut self.cells,
            &mut self.room,
        );
    }

    fn touched(&self) -> &[Touch] {
        &self.room.touches
    }

    fn restart(&mut self) {
        self.values.copy_from_slice(&self.firsts);
        copy_rows(&mut self.cells, &self.first_rows);
        self.room.touches.clear();
    }

    fn retreat(&mut self, items: &[u64], touches: &[Touch]) {
        self.values.copy_from_slice(items);
        take_back(&mut self.cells, touches);
        self.room.touches.clear();
    }

    ghost shaped = { λ c. shaped_as c.item_regs c.array_regs c.shape };

    ghost defined_shaped = { λ c l _. c.shapes l };

    ghost sized = { λ c. c.sizes };

    ghost named = { λ c. c.named };
}
