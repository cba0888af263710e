//! The effect of `reset`.

ghost use Rattle.std.specs.Prelude.{◌≡◌, IfOk, [], map, codes};
ghost use Rattle.lisa_tree.specs.Statements.{stmt_trees};
ghost use Rattle.lisa_tree.specs.Expressions.{expr_tree};
ghost use Rattle.typed_values.specs.Words.{typed_word};
ghost use Rattle.typed_values.specs.ResetEffects.{Moment, moment, moment_of, resetting, reset_moment};

use crate::memories::Memory;
use crate::{Does, Value, Whole, perform};
use description_types::sections;
use lisa_tree::{Expr, Names, behavior};
use lisa_words::{Name, NoMemory};
use std::alloc::Global;
use std::marker::Model;

// What contracts see of a memory.
#[derive(Drop)]
struct Registers {}

impl Model for Registers {
    ghost Value = { Moment };

    ghost view = { λ seen. moment [] [] };
}

// What the statements of `reset` read and change: registers and locals.
#[derive(Drop)]
struct Resetting<'a, N> {
    names: &'a N,
}

impl<'a, N: Names> Does for Resetting<'a, N> {
    type State = Memory;

    type Moment = Registers;

    ghost doing = { λ r. resetting (N.tree r.names.now) };

    ghost moment = { moment_of };

    fn value(&self, state: &Memory, expression: &Expr) -> Value {
        state.value(self.names, expression)
    }

    fn put(&self, state: &mut Memory, target: &Expr, given: Whole) -> Result<(), NoMemory> {
        state.assign(self.names, target, given)?;
        Ok(())
    }

    fn call(&self, _state: &mut Memory, _name: &Name) -> Result<(), NoMemory> {
        Ok(())
    }

    fn stall(&self, _state: &mut Memory, _stage: &Name) -> Result<(), NoMemory> {
        Ok(())
    }

    fn flush(&self, _state: &mut Memory, _stage: &Name) -> Result<(), NoMemory> {
        Ok(())
    }

    fn set_local(&self, state: &mut Memory, name: &Name, value: Value) -> Result<(), NoMemory> {
        state.set_local(name, value)?;
        Ok(())
    }

    fn local_count(&self, state: &Memory) -> usize {
        state.local_count()
    }

    fn leave(&self, state: &mut Memory, count: usize) {
        state.leave(count);
    }
}

/// The values that `reset` gives to the resources, by their numbers, from zeros on: those of registers that are no arrays, and 0 for any
/// other. Where there is no `reset` all are 0.
pub fn reset_values<N: Names>(alloc: Global, names: &N) -> Result<Vec<Value>, NoMemory>
    ensures { IfOk result (λ values. map typed_word values.items ≡ (reset_moment (N.tree names.now)).registers) }
{
    let mut memory = Memory::new(alloc, names)?;
    let reset = Name::from_bytes(alloc, b"reset")?;
    if let Some(number) = names.number_of(&reset) {
        if let Some(all) = behavior(sections(names, number)) {
            perform(&Resetting { names }, all, &mut memory)?;
        }
    }
    Ok(memory.registers)
}
