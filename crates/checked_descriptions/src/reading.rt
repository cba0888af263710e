//! Descriptions from bytes.
ghost use Rattle.std.specs.Prelude.{◌≡◌, ◌<◌, ◌^◌, length};
ghost use Rattle.lisa_tree.specs.Descriptions.{description_tree};
ghost use Rattle.lisa_tree.specs.Texts.{SpellsText};
ghost use Rattle.checked_descriptions.specs.Descriptions.{IsUnread};
ghost use Rattle.lisa_outcomes.specs.Stages.{Finds};
ghost use Rattle.checked_descriptions.specs.Unread.{unread_end};

use lisa_outcomes::{End, Refusal};
use lisa_reader::read_description;
use lisa_tree::{DescFault, Description};
use std::alloc::Global;

// The end of a command whose description wasn't read, or was refused.
pub(crate) fn unread(fault: DescFault) -> End
    ensures { result ≡ unread_end fault }
{
    match fault {
        DescFault::NoMemory => End::NoMemory,
        other => End::Refused(Refusal::Description(other)),
    }
}

/// The description that bytes spell.
pub fn description_of(alloc: Global, bytes: &[u8]) -> Result<Description, End>
    requires { length bytes.now < 2 ^ 32 }
    ensures { Finds description_tree (SpellsText bytes.now) (IsUnread bytes.now) result }
{
    match read_description(alloc, bytes) {
        Ok(description) => Ok(description),
        Err(fault) => Err(unread(fault)),
    }
}
