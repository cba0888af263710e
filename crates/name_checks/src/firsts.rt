//! The first fault of each condition.

ghost use Rattle.std.specs.Prelude.{◌≡◌, IfOk};
ghost use Rattle.description_places.specs.Places.{first, description_places};
ghost use Rattle.name_checks.specs.Doubled.{duplicate};
ghost use Rattle.name_checks.specs.Unknown.{unknown};

use crate::doubled::Doubled;
use crate::unknown::Unknown;
use description_places::first_fault;
use lisa_tree::{DescFault, Names};
use lisa_words::NoMemory;
use meant_declarations::{Meanings, lacking_references};
use std::alloc::Global;

/// The first name that two things of one class share, or of what stands twice.
pub fn first_duplicate<N: Names>(alloc: Global, names: &N) -> Result<Option<DescFault>, NoMemory>
    ensures { IfOk result (λ found. found ≡ first (duplicate (N.tree names.now)) (description_places (N.tree names.now))) }
{
    first_fault(alloc, &Doubled { alloc, names }, names.description())
}

/// The first name that stands for nothing. What operations above a reference's own declare by its name isn't looked up for each of them
/// again where one of them hands it on.
pub fn first_unknown<N: Names>(alloc: Global, names: &N) -> Result<Option<DescFault>, NoMemory>
    ensures { IfOk result (λ found. found ≡ first (unknown (N.tree names.now)) (description_places (N.tree names.now))) }
{
    let meanings = Meanings::make(alloc, names)?;
    let lacking = lacking_references(alloc, names, &meanings)?;
    let condition = Unknown {
        alloc,
        names,
        lacking: &lacking,
    };
    first_fault(alloc, &condition, names.description())
}
