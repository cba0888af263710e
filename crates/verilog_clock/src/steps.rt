// One edge, from the present state to the next one.
ghost use Rattle.std.specs.Prelude.{◌≡◌, ◌≤◌, ◌+◌, All, length};
ghost use Rattle.std.specs.Vec.{vec_capacity};
ghost use Rattle.lisa_engine.specs.Shape.{AreCells};
ghost use Rattle.lisa_engine.specs.Touches.{Tracks};
ghost use Rattle.verilog_clock.specs.Compiled.{rows, acts_most, code_updates, code_edge};
ghost use Rattle.verilog_clock.specs.Named.{IsFor};
ghost use Rattle.verilog_clock.specs.Writes.{state_of};

use crate::code::{Act, Net};
use crate::edges::{append_all, collect, settle};
use crate::rooms::Room;
use crate::writes::apply;
use lisa_engine::ArrayItem;

/// Makes an edge in the room that is there for it.
pub fn run_edge(
    nets: &[Net],
    acts: &[Act],
    arrays: &[ArrayItem],
    pins: &[u64],
    values: &mut [u64],
    cells: &mut [Vec<u64>],
    room: &mut Room,
)
    requires shape { AreCells arrays.now (rows cells.old) }
    requires few { length arrays.now ≤ 1024 }
    requires fitting { All (IsFor arrays.now) (code_updates nets.now acts.now (state_of values.old (rows cells.old)) pins.now) }
    requires settled { length values.old + length pins.now + length nets.now ≤ vec_capacity room.old.settled }
    requires updates { acts_most acts.now ≤ vec_capacity room.old.updates }
    requires touches { acts_most acts.now ≤ vec_capacity room.old.touches }
    ensures state { state_of values.new (rows cells.new) ≡ code_edge nets.now acts.now (state_of values.old (rows cells.old)) pins.now }
    ensures tracks { Tracks arrays.now (rows cells.old) (rows cells.new) room.new.touches.items }
    ensures settled { vec_capacity room.old.settled ≤ vec_capacity room.new.settled }
    ensures updates { vec_capacity room.old.updates ≤ vec_capacity room.new.updates }
    ensures touches { vec_capacity room.old.touches ≤ vec_capacity room.new.touches }
{
    room.settled.clear();
    append_all(&mut room.settled, values);
    append_all(&mut room.settled, pins);
    settle(nets, &mut room.settled, cells);
    room.updates.clear();
    collect(acts, &room.settled, cells, &mut room.updates);
    room.touches.clear();
    apply(&room.updates, arrays, values, cells, &mut room.touches);
}
