// The timers of a board.
ghost use Rattle.std.specs.Prelude.{◌≡◌, ◌<◌, ◌++◌, [], ◌∷◌, ℕ, List, All, length, map, fold};
ghost use Rattle.lisa_engine.specs.PinValues.{set_pin};
ghost use Rattle.lisa_board.specs.Feeding.{tick as ticked, counter_after, pulse_of};

use crate::parts::Timer;
use lisa_engine::Engine;

// A timer's count, and the value of its pin.
#[derive(Clone, Copy)]
pub(crate) struct Counter {
    pub(crate) count: u64,
    pub(crate) pulse: u64,
}

// The count and the pin's value after a look at the load.
fn tick(counter: Counter, load: u64) -> Counter
    ensures { result ≡ ticked counter load }
{
    if counter.count == 0 {
        return Counter {
            count: load,
            pulse: 0,
        };
    }
    let count = counter.count - 1;
    Counter {
        count,
        pulse: if count == 0 { 1 } else { 0 },
    }
}

// Each timer looks at its item.
pub(crate) fn tick_all<E: Engine>(engine: &E, timers: &[Timer], counters: &mut [Counter])
    requires loads { All (λ timer. timer.load < length (E.machine engine.now).items) timers.now }
    requires room { length counters.old ≡ length timers.now }
    ensures { (rows : List (List ℕ)) → counters.old ≡ map (λ timer. counter_after timer rows) timers.now
        → counters.new ≡ map (λ timer. counter_after timer (rows ++ (E.present engine.now).items ∷ [])) timers.now }
{
    for place in 0..timers.len() {
        let load = engine.value(timers[place].load as usize);
        counters[place] = tick(counters[place], load);
    }
}

// Gives the timers' pins their values.
pub(crate) fn set_pulses(timers: &[Timer], counters: &[Counter], pins: &mut [u64])
    requires pins { All (λ timer. timer.pin < length pins.old) timers.now }
    requires room { length counters.now ≡ length timers.now }
    ensures { (rows : List (List ℕ)) → counters.now ≡ map (λ timer. counter_after timer rows) timers.now
        → pins.new ≡ fold set_pin pins.old (map (pulse_of rows) timers.now) }
{
    for place in 0..timers.len() {
        pins[timers[place].pin as usize] = counters[place].pulse;
    }
}
