// What the names of a module stand for.
ghost use Rattle.std.specs.Prelude.{ℕ, List, ◌≡◌, ◌<◌, IfOk, IfSome};
ghost use Rattle.std.specs.Option.{unwrap_or};
ghost use Rattle.name_tables.specs.TableViews.{value_of};
ghost use Rattle.verilog_text.specs.Clocked.{widths_of};
ghost use Rattle.verilog_places.specs.Trees.{placed_module, bare_module};
ghost use Rattle.verilog_size_checks.specs.Sought.{exponent as exponent_of_depth, needs};

use crate::powers::exponent;
use crate::tables::{Kind, enter, enter_inputs, enter_members, number};
use lisa_words::Name;
use std::alloc::{AllocError, Global};
use std::collections::BTreeMap;
use verilog_places::PlacedModule;

/// A module with tables of its names.
#[derive(Drop)]
pub struct Scope<'a> {
    pub tree: &'a PlacedModule,
    words: BTreeMap<Name, u32>,
    cells: BTreeMap<Name, u32>,
    depths: BTreeMap<Name, u32>,
    pub ghost wide: { (n : List ℕ) → unwrap_or (value_of words n) 0 ≡ (widths_of (bare_module (placed_module tree.now))).wide n },
    pub ghost cell: { (n : List ℕ) → unwrap_or (value_of cells n) 0 ≡ (widths_of (bare_module (placed_module tree.now))).cell n },
    pub ghost deep: { (n : List ℕ) → exponent_of_depth (unwrap_or (value_of depths n) 0) ≡ needs (bare_module (placed_module tree.now)) n },
}

// The widths of what has one word: `reg`s, inputs and wires.
fn words(alloc: Global, m: &PlacedModule) -> Result<BTreeMap<Name, u32>, AllocError>
    ensures { IfOk result (λ table. (n : List ℕ) → unwrap_or (value_of table n) 0 ≡ (widths_of (bare_module (placed_module m.now))).wide n) }
{
    let mut table = BTreeMap::new(alloc);
    enter_members(&mut table, Kind::Regs, &m.members)?;
    enter_inputs(&mut table, Kind::Regs, &m.inputs)?;
    enter_members(&mut table, Kind::Nets, &m.members)?;
    Ok(table)
}

// The widths of the cells of arrays.
fn cells(alloc: Global, m: &PlacedModule) -> Result<BTreeMap<Name, u32>, AllocError>
    ensures { IfOk result (λ table. (n : List ℕ) → unwrap_or (value_of table n) 0 ≡ (widths_of (bare_module (placed_module m.now))).cell n) }
{
    let mut table = BTreeMap::new(alloc);
    enter_members(&mut table, Kind::Cells, &m.members)?;
    Ok(table)
}

// The depths of arrays, and 0 for any other name.
fn depths(alloc: Global, m: &PlacedModule) -> Result<BTreeMap<Name, u32>, AllocError>
    ensures { IfOk result (λ table. (n : List ℕ) → exponent_of_depth (unwrap_or (value_of table n) 0) ≡ needs (bare_module (placed_module m.now)) n) }
{
    let mut table = BTreeMap::new(alloc);
    enter(&mut table, &m.clock, 0)?;
    enter_inputs(&mut table, Kind::Depths, &m.inputs)?;
    enter_members(&mut table, Kind::Depths, &m.members)?;
    Ok(table)
}

impl<'a> Scope<'a> {
    /// The scope of a module.
    pub fn of(alloc: Global, m: &'a PlacedModule) -> Result<Scope<'a>, AllocError>
        ensures { IfOk result (λ scope. scope.tree.now ≡ m.now) }
    {
        let words = words(alloc, m)?;
        let cells = cells(alloc, m)?;
        let depths = depths(alloc, m)?;
        Ok(Scope {
            tree: m,
            words,
            cells,
            depths,
        })
    }

    /// The width of a `reg`, input or wire.
    pub fn width(&self, name: &Name) -> u32
        ensures { result ≡ (widths_of (bare_module (placed_module self.now.tree.now))).wide name.now }
    {
        number(&self.words, name)
    }

    /// The width of an array's cells.
    pub fn cell_width(&self, name: &Name) -> u32
        ensures { result ≡ (widths_of (bare_module (placed_module self.now.tree.now))).cell name.now }
    {
        number(&self.cells, name)
    }

    /// The length that an index of an array needs, where its depth is a power of two.
    pub fn needed(&self, name: &Name) -> Option<u32>
        ensures value { result ≡ needs (bare_module (placed_module self.now.tree.now)) name.now }
        ensures small { IfSome result (λ k. k < 32) }
    {
        exponent(number(&self.depths, name))
    }
}
