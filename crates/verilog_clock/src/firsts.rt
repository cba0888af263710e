// What a clock begins with.
ghost use Rattle.std.specs.Prelude.{◌≡◌, ◌≤◌, ◌+◌, IfOk, IfSome, map, fold, length, replicate};
ghost use Rattle.verilog_text.specs.Trees.{module_tree, setting_tree};
ghost use Rattle.verilog_text.specs.Clocked.{regs, arrays, settings, first_set, first_items};
ghost use Rattle.verilog_clock.specs.Compiled.{act_most, acts_most};
ghost use Rattle.verilog_clock.specs.Scopes.{module_in};

use crate::code::Act;
use crate::lengths::Length;
use crate::scope::Scope;
use crate::writes::set_value;
use lisa_engine::{ArrayItem, Item};
use lisa_words::{Name, Word};
use std::alloc::{AllocError, Global};
use verilog_text::{Member, Module};

/// The regs of one word, in order.
pub fn regs_of(alloc: Global, module: &Module) -> Result<Vec<Item>, AllocError>
    ensures { IfOk result (λ v. v.items ≡ regs (module_tree module.now).members) }
{
    let mut items = Vec::new(alloc);
    'each: for member in &module.members {
        match member {
            Member::Reg(item) => {
                let name = item.name.clone()?;
                items.push(Item {
                    name,
                    width: item.width,
                })?;
            }
            Member::Array(_) | Member::Wire(_, _) | Member::Initial(_) | Member::Always(_) => {}
        }
    }
    Ok(items)
}

/// The arrays, in order.
pub fn arrays_of(alloc: Global, module: &Module) -> Result<Vec<ArrayItem>, AllocError>
    ensures { IfOk result (λ v. v.items ≡ arrays (module_tree module.now).members) }
{
    let mut items = Vec::new(alloc);
    'each: for member in &module.members {
        match member {
            Member::Array(array) => {
                let name = array.name.clone()?;
                items.push(ArrayItem {
                    name,
                    width: array.width,
                    depth: array.depth,
                })?;
            }
            Member::Reg(_) | Member::Wire(_, _) | Member::Initial(_) | Member::Always(_) => {}
        }
    }
    Ok(items)
}

// Gives first values in order.
fn set_firsts(scope: &Scope<'_>, values: &mut [u64], all: &[(Name, Word)])
    ensures { values.new ≡ fold (first_set (module_in scope.now)) values.old (map setting_tree all.now) }
{
    'each: for setting in all {
        let (name, word) = setting;
        let length = Length::of(scope.width(name));
        set_value(values, scope.target(name), length.cut(word.bits));
    }
}

/// The first values of the regs.
pub fn first_values(alloc: Global, scope: &Scope<'_>, count: usize) -> Result<Vec<u64>, AllocError>
    requires { count ≡ length (regs (module_in scope.now).members) }
    ensures { IfOk result (λ v. v.items ≡ first_items (module_in scope.now)) }
{
    let mut values = vec![in alloc; 0; count]?;
    'each: for member in &scope.module.members {
        match member {
            Member::Initial(all) => set_firsts(scope, &mut values, all),
            Member::Reg(_) | Member::Array(_) | Member::Wire(_, _) | Member::Always(_) => {}
        }
    }
    Ok(values)
}

/// The most updates that actions give, if that many can be counted.
#[cycle(counted)]
pub fn most_updates(acts: &[Act]) -> Option<usize>
    ensures { IfSome result (λ most. most ≡ acts_most acts.now) }
{
    let mut most = 0usize;
    'each: for act in acts {
        most = most.checked_add(most_of(act)?)?;
    }
    Some(most)
}

#[cycle(counted)]
fn most_of(act: &Act) -> Option<usize>
    ensures { IfSome result (λ most. most ≡ act_most act.now) }
{
    match act {
        Act::Set(_, _, _) | Act::Put(_, _, _, _) => Some(1),
        Act::If(_, this, other) => {
            let these = most_updates(this)?;
            let others = most_updates(other)?;
            let most = these.checked_add(others)?;
            Some(most)
        }
    }
}
