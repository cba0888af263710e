// What the names of a module stand for.
ghost use Rattle.std.specs.Prelude.{◌≡◌, ◌≤◌, ℕ, IfOk, map, length, slice_index};
ghost use Rattle.lisa_engine.specs.declared.parts.Item.{Item};
ghost use Rattle.lisa_engine.specs.declared.parts.ArrayItem.{ArrayItem};
ghost use Rattle.verilog_text.specs.Trees.{module_tree};
ghost use Rattle.verilog_text.specs.Clocked.{regs, arrays, scalars, item_place, array_place, widths_of};
ghost use Rattle.verilog_text.specs.Clockable.{IsClockable};

use crate::declare::{declare_arrays, declare_items, declare_regs, declare_wires};
use crate::names::Names;
use lisa_words::Name;
use std::alloc::{AllocError, Global};
use verilog_text::Module;

/// A module with the places of its names.
#[derive(Drop)]
pub struct Scope<'a> {
    pub module: &'a Module,
    words: Names,
    memories: Names,
    reg_count: usize,
    pub ghost word_names: { words.set.keys.items ≡ map (λ (item : Item). item.name) (scalars (module_tree module.now)) },
    pub ghost word_widths: { words.widths.items ≡ map (λ (item : Item). item.width) (scalars (module_tree module.now)) },
    pub ghost memory_names: { memories.set.keys.items ≡ map (λ (array : ArrayItem). array.name) (arrays (module_tree module.now).members) },
    pub ghost memory_widths: { memories.widths.items ≡ map (λ (array : ArrayItem). array.width) (arrays (module_tree module.now).members) },
    pub ghost counted: { reg_count ≡ length (regs (module_tree module.now).members) },
    pub ghost narrow_words: { (place : ℕ) → slice_index words.widths.items place ≤ 64 },
    pub ghost narrow_memories: { (place : ℕ) → slice_index memories.widths.items place ≤ 64 },
}

impl<'a> Scope<'a> {
    /// The scope of a module.
    pub fn of(alloc: Global, module: &'a Module) -> Result<Scope<'a>, AllocError>
        requires { IsClockable (module_tree module.now) }
        ensures { IfOk result (λ scope. scope.module.now ≡ module.now) }
    {
        let mut words = Names::new(alloc);
        declare_regs(&mut words, module)?;
        let reg_count = words.widths.len();
        declare_items(&mut words, &module.inputs)?;
        declare_wires(&mut words, module)?;
        let mut memories = Names::new(alloc);
        declare_arrays(&mut memories, module)?;
        Ok(Scope {
            module,
            words,
            memories,
            reg_count,
        })
    }

    /// The place of a reg, input or wire.
    pub fn place(&self, name: &Name) -> usize
        ensures { result ≡ item_place (scalars (module_tree self.now.module.now)) name.now }
    {
        self.words.place(name)
    }

    /// The place of a reg among the regs, or their number.
    pub fn target(&self, name: &Name) -> usize
        ensures { result ≡ item_place (regs (module_tree self.now.module.now).members) name.now }
    {
        self.place(name).min(self.reg_count)
    }

    /// The place of an array.
    pub fn array(&self, name: &Name) -> usize
        ensures { result ≡ array_place (arrays (module_tree self.now.module.now).members) name.now }
    {
        self.memories.place(name)
    }

    /// The width of a reg, input or wire.
    pub fn width(&self, name: &Name) -> u32
        ensures value { result ≡ (widths_of (module_tree self.now.module.now)).wide name.now }
        ensures small { result ≤ 64 }
    {
        self.words.width(name)
    }

    /// The width of an array's cells.
    pub fn cell_width(&self, name: &Name) -> u32
        ensures value { result ≡ (widths_of (module_tree self.now.module.now)).cell name.now }
        ensures small { result ≤ 64 }
    {
        self.memories.width(name)
    }
}
