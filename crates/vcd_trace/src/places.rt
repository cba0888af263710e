// Where a part may stand.
ghost use Rattle.std.specs.Prelude.{◌≡◌, ◌<◌, ◌≤◌, ◌+◌, ◌-◌, ◌^◌};
ghost use Rattle.vcd_trace.specs.Forms.{place_after, may_end};
ghost use Rattle.vcd_trace.specs.OpenScopes.{IsOpenBelow};
ghost use Rattle.vcd_trace.specs.declared.places.Place.TheVariants.{Head, Body};

use crate::parts::{Event, Part};

/// A place in a dump: among the declarations, with so many scopes open, or behind them, perhaps inside a mark.
#[derive(Clone, Copy, Debug, PartialEq, Eq)]
pub enum Place {
    Head(u32),
    Body(bool),
}

// The place behind a part among the declarations.
fn after_head(depth: u32, part: &Part<'_>) -> Option<Place>
    requires { depth + 1 < 2 ^ 32 }
    ensures { result ≡ place_after (Head depth) part.now }
{
    match part {
        Part::Note | Part::Comment | Part::Declares(_) => Some(Place::Head(depth)),
        Part::Opens => Some(Place::Head(depth + 1)),
        Part::Closes => {
            if depth == 0 {
                None
            } else {
                Some(Place::Head(depth - 1))
            }
        }
        Part::Definitions => {
            if depth == 0 {
                Some(Place::Body(false))
            } else {
                None
            }
        }
        Part::Begins | Part::Ends | Part::Happens(_) => None,
    }
}

// The place behind a part behind the declarations.
fn after_body(inside: bool, part: &Part<'_>) -> Option<Place>
    ensures { result ≡ place_after (Body inside) part.now }
{
    match part {
        Part::Comment | Part::Happens(Event::Change(_)) => Some(Place::Body(inside)),
        Part::Begins => {
            if inside {
                None
            } else {
                Some(Place::Body(true))
            }
        }
        Part::Ends => {
            if inside {
                Some(Place::Body(false))
            } else {
                None
            }
        }
        Part::Happens(Event::Time(_)) => {
            if inside {
                None
            } else {
                Some(Place::Body(false))
            }
        }
        Part::Note | Part::Opens | Part::Closes | Part::Declares(_) | Part::Definitions => None,
    }
}

/// The place behind a part, where the part may stand.
pub(crate) fn after(place: Place, part: &Part<'_>) -> Option<Place>
    requires { IsOpenBelow place (2 ^ 32 - 1) }
    ensures { result ≡ place_after place part.now }
{
    match place {
        Place::Head(depth) => after_head(depth, part),
        Place::Body(inside) => after_body(inside, part),
    }
}

pub(crate) fn may_end(place: Place) -> bool
    ensures { result ≡ may_end place }
{
    match place {
        Place::Head(_) => false,
        Place::Body(inside) => !inside,
    }
}
