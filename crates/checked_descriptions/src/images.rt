//! The image of a description.
ghost use Rattle.std.specs.Prelude.{◌≡◌, ◌<◌, ◌^◌, length, IfOk, IfSome};
ghost use Rattle.lisa_tree.specs.Descriptions.{description_tree};
ghost use Rattle.lisa_engine.specs.Images.{IsImage};
ghost use Rattle.lisa_object.specs.Rules.{IsStamped};
ghost use Rattle.lisa_outcomes.specs.RunViews.{bytes_of};
ghost use Rattle.lisa_outcomes.specs.Stages.{Finds};
ghost use Rattle.checked_descriptions.specs.DescriptionImages.{IsImageFor, IsNoImageFor};
ghost use Rattle.checked_descriptions.specs.ImageViews.{IsMade, IsMadeElsewhere};

use description_digest::digest;
use engine_commands::{image_of, memories};
use lisa_engine::Image;
use lisa_object::{ImageFault, Stamped};
use lisa_outcomes::{End, Refusal, RunBytes};
use lisa_tree::Description;
use std::alloc::Global;

// The memories of an image, where it has the description's digest.
fn memories_for(alloc: Global, description: &Description, stamped: Stamped) -> Result<Image, End>
    ensures finds { Finds (λ image. image) (IsMade (description_tree description.now) stamped) (IsMadeElsewhere (description_tree description.now) stamped) result }
{
    let expected = match digest(alloc, description) {
        Ok(expected) => expected,
        Err(_) => return Err(End::NoMemory),
    };
    let kept = stamped.digest;
    if kept != expected {
        return Err(End::Refused(Refusal::Image(ImageFault::OtherDescription { kept, expected })));
    }
    Ok(stamped.image)
}

/// The memories of a run's image, where it is for this description.
pub fn image_for(
    alloc: Global,
    description: &Description,
    bytes: &RunBytes<'_>,
) -> Result<Image, End>
    requires { IfSome (bytes_of bytes.now).image (λ image. length image < 2 ^ 32) }
    ensures finds { Finds (λ image. image) (IsImageFor (description_tree description.now) (bytes_of bytes.now).image) (IsNoImageFor (description_tree description.now) (bytes_of bytes.now).image) result }
    ensures kept { IfOk result IsImage }
{
    let image = match image_of(alloc, bytes) {
        Ok(image) => image,
        Err(end) => return Err(end),
    };
    match image {
        Some(stamped) => memories_for(alloc, description, stamped),
        None => Ok(memories(alloc, None)),
    }
}
