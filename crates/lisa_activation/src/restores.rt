//! Queues made anew from what shows which activations stand.

ghost use Rattle.std.specs.Prelude.{◌≡◌, ℕ, ◌+◌, ◌<◌, ◌≤◌, false, ◌&&◌, ◌||◌, nat_eq, nat_lt, Bool};
ghost use Rattle.lisa_activation.specs.Queued.{above, count, entered, first, standing, HasTables};
ghost use Rattle.lisa_activation.specs.Restored.{comes, IsShownBetween, IsRestored};

use crate::kept::Queues;

/// What shows which activations stand, as the items of a state do.
pub trait Shows {
    ghost shown: { Self → ℕ → ℕ → Bool };

    fn stands(&self, stage: u32, occurrence: u32) -> bool
        requires { stage < 8 }
        ensures { result ≡ shown self.now stage occurrence };
}

// Whether an occurrence under an activator of a level stands so many stages behind the one after its activator's.
fn comes<S: Shows>(shows: &S, above: u8, steps: u32, occurrence: u32) -> bool
    requires level { above ≤ 8 }
    requires steps { steps < 8 }
    ensures { result ≡ comes (S.shown shows.now) above steps occurrence }
{
    if above == 0 {
        return false;
    }
    let stage = above as u32 + steps;
    if stage < 8 {
        shows.stands(stage, occurrence)
    } else {
        false
    }
}

// Records one occurrence if it stands so many stages behind the one after its activator's.
fn enter_one<S: Shows>(queues: &mut Queues, shows: &S, steps: u32, occurrence: u32)
    requires steps { steps < 8 }
    requires occurrence { occurrence < count queues.old }
    ensures entered { (stage number : ℕ) → stage < 8 → entered queues.new stage number ≡ (entered queues.old stage number || (comes (S.shown shows.now) (above queues.old occurrence) steps occurrence && (nat_eq (stage + 1) (above queues.old occurrence) && nat_eq number occurrence))) }
    ensures first { (number : ℕ) → first queues.new number ≡ first queues.old number }
    ensures standing { (stage number : ℕ) → standing queues.new stage number ≡ standing queues.old stage number }
    ensures tables { HasTables queues.old queues.new }
{
    let level = queues.above(occurrence);
    if comes(shows, level, steps, occurrence) {
        queues.enter(occurrence);
    }
}

// Records each occurrence that stands so many stages behind the one after its activator's.
fn enter_all<S: Shows>(queues: &mut Queues, shows: &S, steps: u32)
    requires steps { steps < 8 }
    requires entered { (stage number : ℕ) → entered queues.old stage number ≡ false }
    ensures entered { (stage number : ℕ) → stage < 8 → entered queues.new stage number ≡ (nat_lt number (count queues.old) && (comes (S.shown shows.now) (above queues.old number) steps number && nat_eq (stage + 1) (above queues.old number))) }
    ensures first { (number : ℕ) → first queues.new number ≡ first queues.old number }
    ensures standing { (stage number : ℕ) → standing queues.new stage number ≡ standing queues.old stage number }
    ensures tables { HasTables queues.old queues.new }
{
    for occurrence in 0..queues.placings.len() as u32 {
        enter_one(queues, shows, steps, occurrence);
    }
}

/// Makes queues anew: first all is flushed, and then what stands furthest from its activator's stage is recorded first and moved on.
pub fn restore<S: Shows>(queues: &mut Queues, shows: &S)
    requires { IsShownBetween queues.old (S.shown shows.now) }
    ensures { IsRestored queues.old queues.new (S.shown shows.now) }
{
    queues.finish(0, 255);
    for steps in (0..8).rev() {
        enter_all(queues, shows, steps);
        queues.finish(0, 0);
    }
}
