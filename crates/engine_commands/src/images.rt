//! Images from bytes.
ghost use Rattle.std.specs.Prelude.{◌≡◌, ◌<◌, ◌^◌, Some, length, IfSome};
ghost use Rattle.lisa_outcomes.specs.RunViews.{bytes_of};
ghost use Rattle.lisa_outcomes.specs.Stages.{Finds};
ghost use Rattle.engine_commands.specs.Images.{IsImageOf, IsNoImage, memories_of};
ghost use Rattle.engine_commands.specs.Unread.{unread_image};

use lisa_engine::Image;
use lisa_object::{ImageFault, Stamped, read_image};
use lisa_outcomes::{End, Refusal, RunBytes};
use std::alloc::Global;

// The end of a command whose image wasn't read.
fn unread(fault: ImageFault) -> End
    ensures { result ≡ unread_image fault }
{
    match fault {
        ImageFault::NoMemory => End::NoMemory,
        other => End::Refused(Refusal::Image(other)),
    }
}

// The image that bytes spell.
fn spelled(alloc: Global, bytes: &[u8]) -> Result<Option<Stamped>, End>
    requires { length bytes.now < 2 ^ 32 }
    ensures { Finds (λ image. image) (IsImageOf (Some bytes.now)) (IsNoImage (Some bytes.now)) result }
{
    match read_image(alloc, bytes) {
        Ok(image) => Ok(Some(image)),
        Err(fault) => Err(unread(fault)),
    }
}

/// The image of a run, where it isn't left out.
pub fn image_of(alloc: Global, bytes: &RunBytes<'_>) -> Result<Option<Stamped>, End>
    requires { IfSome (bytes_of bytes.now).image (λ image. length image < 2 ^ 32) }
    ensures { Finds (λ image. image) (IsImageOf (bytes_of bytes.now).image) (IsNoImage (bytes_of bytes.now).image) result }
{
    match bytes.image {
        Some(image) => spelled(alloc, image),
        None => Ok(None),
    }
}

/// The memories of an image; one that is left out has none.
pub fn memories(alloc: Global, image: Option<Stamped>) -> Image
    ensures { result ≡ memories_of image }
{
    match image {
        Some(stamped) => stamped.image,
        None => Image {
            memories: Vec::new(alloc),
        },
    }
}
