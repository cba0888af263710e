// The names of a module in order.
ghost use Rattle.std.specs.Prelude.{OnOk, map};
ghost use Rattle.verilog_text.specs.Trees.{module_tree};
ghost use Rattle.verilog_text.specs.Clocked.{regs, arrays, nets};
ghost use Rattle.verilog_clock.specs.Names.{Declares};

use crate::names::Names;
use lisa_engine::Item;
use std::alloc::AllocError;
use verilog_text::{Member, Module};

/// Declares the regs of one word.
pub fn declare_regs(names: &mut Names, module: &Module) -> Result<(), AllocError>
    ensures { OnOk result (Declares names.old names.new
        (map (λ item. item.name) (regs (module_tree module.now).members)) (map (λ item. item.width) (regs (module_tree module.now).members))) }
{
    'each: for member in &module.members {
        match member {
            Member::Reg(item) => names.declare(&item.name, item.width)?,
            Member::Array(_) | Member::Wire(_, _) | Member::Initial(_) | Member::Always(_) => {}
        }
    }
    Ok(())
}

/// Declares items.
pub fn declare_items(names: &mut Names, items: &[Item]) -> Result<(), AllocError>
    ensures { OnOk result (Declares names.old names.new (map (λ item. item.name) items.now) (map (λ item. item.width) items.now)) }
{
    'each: for item in items {
        names.declare(&item.name, item.width)?;
    }
    Ok(())
}

/// Declares the wires.
pub fn declare_wires(names: &mut Names, module: &Module) -> Result<(), AllocError>
    ensures { OnOk result (Declares names.old names.new
        (map (λ net. net.item.name) (nets (module_tree module.now).members)) (map (λ net. net.item.width) (nets (module_tree module.now).members))) }
{
    'each: for member in &module.members {
        match member {
            Member::Wire(item, _) => names.declare(&item.name, item.width)?,
            Member::Reg(_) | Member::Array(_) | Member::Initial(_) | Member::Always(_) => {}
        }
    }
    Ok(())
}

/// Declares the arrays.
pub fn declare_arrays(names: &mut Names, module: &Module) -> Result<(), AllocError>
    ensures { OnOk result (Declares names.old names.new
        (map (λ array. array.name) (arrays (module_tree module.now).members)) (map (λ array. array.width) (arrays (module_tree module.now).members))) }
{
    'each: for member in &module.members {
        match member {
            Member::Array(array) => names.declare(&array.name, array.width)?,
            Member::Reg(_) | Member::Wire(_, _) | Member::Initial(_) | Member::Always(_) => {}
        }
    }
    Ok(())
}
