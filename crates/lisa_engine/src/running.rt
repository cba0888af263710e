// Several edges in a row.
ghost use Rattle.std.specs.Prelude.{◌≡◌, ◌<◌, ◌+◌, ◌^◌, length};
ghost use Rattle.lisa_engine.specs.PinValues.{IsFor};
ghost use Rattle.lisa_engine.specs.Machines.{course_of, state_at};

use crate::engine::Engine;
use crate::schedule::Schedule;

/// Makes the edges `from + 1` to `from + count` with the schedule's values, in time that grows with the edges and the lines.
/// `pins` is room for one value of each pin.
pub fn run_edges<E: Engine>(
    engine: &mut E,
    schedule: &Schedule,
    from: u32,
    count: u32,
    pins: &mut [u64],
)
    requires last { from + count < 2 ^ 32 }
    requires schedule { IsFor (E.machine engine.old).pins schedule.now }
    requires room { length pins.old ≡ length (E.machine engine.old).pins }
    ensures leads { let state = state_at (course_of (E.machine engine.old) schedule.now) in
        E.present engine.old ≡ state from → E.present engine.new ≡ state (from + count) }
    ensures machine { E.machine engine.new ≡ E.machine engine.old }
{
    pins.fill(0);
    let mut next = schedule.play(0, from, pins);
    for made in 0..count {
        next = schedule.play(next, from + made + 1, pins);
        engine.edge(pins);
    }
}
