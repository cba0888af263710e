//! The queues as they are kept.

ghost use Rattle.std.specs.Prelude.{◌*◌, ◌≤◌, vec_len};

use crate::columns::Column;
use crate::placing::Placing;

/// Which activations stand in which stages, and what was recorded in this edge. No call but `make` takes memory.
#[derive(Drop)]
pub struct Queues {
    pub(crate) columns: Vec<Column>,
    pub(crate) placings: Vec<Placing>,
    ghost room: { vec_len placings ≤ 64 * vec_len columns },
    ghost few: { vec_len columns ≤ 65 },
}
