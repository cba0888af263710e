//! Where the things of a description stand.
ghost use Rattle.std.specs.Prelude.{◌≡◌, IfOk};
ghost use Rattle.lowered_resources.specs.Places.{Places};
ghost use Rattle.lowered_resources.specs.Code.{lasting_of};

use crate::told::Told;
use lisa_words::NoMemory;

/// Where the things of a description stand in its step program.
pub trait Placing {
    ghost places: { Self → Places };

    /// The item of a field, by its boundary and its number among the fields.
    fn field(&self, boundary: usize, field: usize) -> u32
        ensures { result ≡ (places self.now).field boundary field };

    /// The temp by which something is told through an edge. The only other answer is want of numbers for temps.
    fn temp(&self, what: Told) -> Result<u32, NoMemory>
        ensures { IfOk result (λ temp. temp ≡ (places self.now).temp (lasting_of what)) };
}
