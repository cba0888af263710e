// The compiled module, and the room that its edges need.
ghost use Rattle.std.specs.Prelude.{◌≡◌, ◌≤◌, ◌+◌, [], IfOk};
ghost use Rattle.std.specs.Vec.{vec_len, vec_capacity};
ghost use Rattle.verilog_text.specs.Clockable.{IsClockable};
ghost use Rattle.verilog_clock.specs.Compiled.{acts_most};
ghost use Rattle.verilog_clock.specs.Named.{Runs};
ghost use Rattle.verilog_clock.specs.Scopes.{module_in};

use crate::actions::{compile_blocks, compile_nets};
use crate::code::{Act, Net, Update};
use crate::firsts::most_updates;
use crate::scope::Scope;
use lisa_engine::Touch;
use std::alloc::{AllocError, Global};

/// The room for the values, the updates and the touches of an edge.
#[derive(Drop)]
pub struct Room {
    pub settled: Vec<u64>,
    pub updates: Vec<Update>,
    pub touches: Vec<Touch>,
}

/// A compiled module, with the room for an edge.
#[derive(Drop)]
pub struct Compiled {
    pub nets: Vec<Net>,
    pub acts: Vec<Act>,
    pub room: Room,
}

/// Compiles a module with so many regs.
pub fn compile_module(
    alloc: Global,
    scope: &Scope<'_>,
    count: usize,
) -> Result<Compiled, AllocError>
    requires { IsClockable (module_in scope.now) }
    ensures runs { IfOk result (λ c. Runs (module_in scope.now) c.nets.items c.acts.items) }
    ensures settled { IfOk result (λ c. count + vec_len scope.now.module.now.inputs + vec_len c.nets ≤ vec_capacity c.room.settled) }
    ensures updates { IfOk result (λ c. acts_most c.acts.items ≤ vec_capacity c.room.updates) }
    ensures touches { IfOk result (λ c. acts_most c.acts.items ≤ vec_capacity c.room.touches) }
    ensures none { IfOk result (λ c. c.room.touches.items ≡ []) }
{
    let nets = compile_nets(alloc, scope, &scope.module.members)?;
    let acts = compile_blocks(alloc, scope, &scope.module.members)?;
    let pins = scope.module.inputs.len();
    let before = count.checked_add(pins).ok_or(AllocError)?;
    let words = before.checked_add(nets.len()).ok_or(AllocError)?;
    let most = most_updates(&acts).ok_or(AllocError)?;
    let settled = Vec::with_capacity(alloc, words)?;
    let updates = Vec::with_capacity(alloc, most)?;
    let touches = Vec::with_capacity(alloc, most)?;
    let room = Room {
        settled,
        updates,
        touches,
    };
    Ok(Compiled { nets, acts, room })
}
