//! Registers and locals with their values.

ghost use Rattle.std.specs.Prelude.{◌≡◌, OnOk, IfOk, length, map, take, slice_index_or, false};
ghost use Rattle.lisa_tree.specs.Expressions.{expr_tree};
ghost use Rattle.lisa_tree.specs.Descriptions.{resource_tree};
ghost use Rattle.typed_values.specs.Words.{typed_word, truth};
ghost use Rattle.typed_values.specs.Expressions.{value};
ghost use Rattle.std.specs.Prelude.{option_map};
ghost use Rattle.std.specs.Map.{lookup};
ghost use Rattle.lisa_tree.specs.Same.{same_name};
ghost use Rattle.lisa_tree.specs.Resources.{resource_at};
ghost use Rattle.typed_values.specs.Effects.{in_kind};
ghost use Rattle.typed_values.specs.ResetEffects.{register_value, first_value, first_moment, moment_of, name_value, reader, with_locals, with_local, with_register, assigned_name, assigned};

use crate::{Reads, Value, Whole, evaluate};
use lisa_tree::{BoundaryField, Expr, Names, Resource};
use lisa_words::{Name, NoMemory};
use name_tables::NamedValues;
use std::alloc::Global;

/// The values of resources, by their numbers, and of locals, by their names.
#[derive(Drop)]
pub struct Memory {
    pub registers: Vec<Value>,
    pub locals: NamedValues<Value>,
}

// 0 of a register's type.
fn first_value(resource: &Resource) -> Value
    ensures { typed_word result ≡ first_value (resource_tree resource.now) }
{
    match resource {
        Resource::Register(_, shape, _, None) | Resource::Clocked(_, shape, _) => {
            Value::zero_of(*shape)
        }
        _ => Value::truth(false),
    }
}

fn register_value(registers: &[Value], number: usize) -> Value
    ensures { typed_word result ≡ slice_index_or (map typed_word registers.now) number (truth false) }
{
    if number < registers.len() {
        registers[number]
    } else {
        Value::truth(false)
    }
}

impl Memory {
    /// All registers at 0, and no locals.
    pub fn new<N: Names>(alloc: Global, names: &N) -> Result<Memory, NoMemory>
        ensures { IfOk result (λ m. moment_of m ≡ first_moment (N.tree names.now)) }
    {
        let mut registers = Vec::new(alloc);
        for resource in &names.description().resources {
            registers.push(first_value(resource))?;
        }
        Ok(Memory {
            registers,
            locals: NamedValues::new(alloc),
        })
    }

    fn register_named<N: Names>(&self, names: &N, name: &Name) -> Value
        ensures { typed_word result ≡ register_value (moment_of self.now).registers (resource_at (N.tree names.now) name.now) }
    {
        match names.resource_at(name) {
            Some(number) => register_value(&self.registers, number),
            None => Value::truth(false),
        }
    }

    fn local_named(&self, name: &Name) -> Option<Value>
        ensures { option_map typed_word result ≡ lookup (same_name name.now) (moment_of self.now).locals }
    {
        self.locals.get(name)
    }

    fn named<N: Names>(&self, names: &N, name: &Name) -> Value
        ensures { typed_word result ≡ name_value (N.tree names.now) (moment_of self.now) name.now }
    {
        match self.local_named(name) {
            Some(value) => value,
            None => self.register_named(names, name),
        }
    }

    /// The value of an expression.
    pub fn value<N: Names>(&self, names: &N, expression: &Expr) -> Value
        ensures { typed_word result ≡ value (reader (N.tree names.now) (moment_of self.now)) (expr_tree expression.now) }
    {
        evaluate(
            &View {
                names,
                memory: self,
            },
            expression,
        )
    }

    /// Gives a local a value, a new one too.
    pub fn set_local(&mut self, name: &Name, value: Value) -> Result<(), NoMemory>
        ensures { OnOk result (moment_of self.new ≡ with_local name.now (typed_word value) (moment_of self.old)) }
    {
        self.locals.put(name, value)?;
        Ok(())
    }

    fn set_register(&mut self, number: Option<usize>, given: Whole)
        ensures { moment_of self.new ≡ with_register number (in_kind given) (moment_of self.old) }
    {
        if let Some(number) = number {
            if number < self.registers.len() {
                self.registers[number] = given.like(self.registers[number]);
            }
        }
    }

    fn assign_name<N: Names>(
        &mut self,
        names: &N,
        name: &Name,
        given: Whole,
    ) -> Result<(), NoMemory>
        ensures { OnOk result (moment_of self.new ≡ assigned_name (N.tree names.now) name.now (in_kind given) (moment_of self.old) (lookup (same_name name.now) (moment_of self.old).locals)) }
    {
        match self.local_named(name) {
            Some(old) => self.set_local(name, given.like(old)),
            None => {
                self.set_register(names.resource_at(name), given);
                Ok(())
            }
        }
    }

    /// Assigns a local or a register.
    pub fn assign<N: Names>(
        &mut self,
        names: &N,
        target: &Expr,
        given: Whole,
    ) -> Result<(), NoMemory>
        ensures { OnOk result (moment_of self.new ≡ assigned (N.tree names.now) (expr_tree target.now) (in_kind given) (moment_of self.old)) }
    {
        match target {
            Expr::Named(name) => self.assign_name(names, name, given),
            _ => Ok(()),
        }
    }

    /// Lets go of the locals but the first ones.
    pub fn leave(&mut self, count: usize)
        ensures { moment_of self.new ≡ with_locals (take count (moment_of self.old).locals) (moment_of self.old) }
    {
        self.locals.truncate(count);
    }

    /// How many locals there are.
    pub fn local_count(&self) -> usize
        ensures { result ≡ length (moment_of self.now).locals }
    {
        self.locals.len()
    }
}

// What expressions of `reset` read.
#[derive(Drop)]
struct View<'a, N> {
    names: &'a N,
    memory: &'a Memory,
}

impl<'a, N: Names> Reads for View<'a, N> {
    ghost reader = { λ v. reader (N.tree v.names.now) (moment_of v.memory.now) };

    fn named(&self, name: &Name) -> Value {
        self.memory.named(self.names, name)
    }

    fn element(&self, _name: &Name, _index: u64) -> Value {
        Value::truth(false)
    }

    fn input(&self, _field: &Name) -> Value {
        Value::truth(false)
    }

    fn boundary(&self, _field: &BoundaryField) -> Value {
        Value::truth(false)
    }

    fn decoded(&self) -> Value {
        Value::truth(false)
    }
}
