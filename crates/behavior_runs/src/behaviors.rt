// What occurrences do.
ghost use Rattle.std.specs.Prelude.{◌≡◌, ◌≤◌, ◌+◌};
ghost use Rattle.scene_paths.specs.lisa_meaning.Cores.{behave};
ghost use Rattle.moment_stores.specs.Stores.{description_of, moment_of, local_count, local_room, Keeps};
ghost use Rattle.scene_paths.specs.Lookups.{tree_of};
ghost use Rattle.behavior_runs.specs.Rooms.{room_for};

use crate::statements::run_behavior;
use moment_stores::Store;
use scene_paths::{Described, Path};

/// Runs the BEHAVIOR of an occurrence with a word.
pub fn behave(described: &Described<'_>, number: u32, word: u64, store: &mut Store<'_>)
    requires description { description_of store.old ≡ tree_of described.now }
    requires room { local_count store.old + room_for (tree_of described.now) ≤ local_room store.old }
    ensures moment { moment_of store.new ≡ behave (tree_of described.now) number word (moment_of store.old) }
    ensures keeps { Keeps store.old store.new }
    ensures count { local_count store.new ≡ local_count store.old }
{
    run_behavior(
        described.sight(number, word),
        &Path::Occurrence(number),
        described.levels(),
        store,
    );
}
