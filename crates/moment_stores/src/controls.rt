// The levels that were stalled and flushed.
ghost use Rattle.std.specs.Prelude.{◌≡◌};
ghost use Rattle.pipeline_time.specs.Edges.{is_held, is_flushed};
ghost use Rattle.moment_stores.specs.Stores.{moment_of};

use crate::store::Store;

impl<'a> Store<'a> {
    /// Whether the stage of a level is held so far: a stall names it, or one behind it.
    pub fn is_held(&self, level: usize) -> bool
        ensures { result ≡ is_held (moment_of self.now).stalled level }
    {
        self.stalled.is_held(level)
    }

    /// Whether the stage of a level is flushed so far.
    pub fn is_flushed(&self, level: usize) -> bool
        ensures { result ≡ is_flushed (moment_of self.now).flushed level }
    {
        self.flushed.is_flushed(level)
    }
}
