//! Sixty-four occurrences in an edge.

ghost use Rattle.std.specs.Prelude.{◌≡◌, ℕ, ◌+◌, ◌-◌, ◌<◌, ◌≤◌, length, false, not, ◌&&◌, ◌||◌, nat_eq, slice_index};
ghost use Rattle.activation_bits.specs.Members.{has};
ghost use Rattle.lisa_activation.specs.Columns.{is_open, ends, due_in, IsBare};

use activation_bits::with_bit;

pub(crate) mod column;

pub(crate) use column::Column;

fn has_stage(stages: u8, stage: usize) -> bool
    requires { stage < 8 }
    ensures { result ≡ has stages stage }
{
    (stages >> stage) & 1 == 1
}

fn is_open(held: u8, flushed: u8, stage: usize) -> bool
    requires { stage < 8 }
    ensures { result ≡ is_open held flushed stage }
{
    !has_stage(held, stage) && !has_stage(flushed, stage)
}

// What stays in a stage.
fn staying(word: u64, held: u8, flushed: u8, stage: usize) -> u64
    requires { stage < 8 }
    ensures { (bit : ℕ) → has result bit ≡ (has word bit && (has held stage && not (has flushed stage))) }
{
    if has_stage(held, stage) && !has_stage(flushed, stage) {
        word
    } else {
        0
    }
}

// What moves on from a stage: what stood there and didn't run, and what was recorded there.
fn moving(word: u64, own: u64, entered: u64, held: u8, flushed: u8, stage: usize) -> u64
    requires { stage < 8 }
    ensures { (bit : ℕ) → bit < 64 → has result bit ≡ (is_open held flushed stage && ((has word bit && not (has own bit)) || has entered bit)) }
{
    if is_open(held, flushed, stage) {
        (word & !own) | entered
    } else {
        0
    }
}

// Ends an edge.
fn finish_words(standing: &mut [u64; 8], own: &[u64; 8], entered: &[u64; 8], held: u8, flushed: u8)
    ensures { (stage bit : ℕ) → stage < 8 → bit < 64 → has (slice_index standing.new stage) bit ≡ ends (λ s. has (slice_index standing.old s) bit) (λ s. has (slice_index own.now s) bit) (λ s. has (slice_index entered.now s) bit) held flushed stage }
{
    for stage in (1..8).rev() {
        let stayed = staying(standing[stage], held, flushed, stage);
        let moved = moving(
            standing[stage - 1],
            own[stage - 1],
            entered[stage - 1],
            held,
            flushed,
            stage - 1,
        );
        standing[stage] = stayed | moved;
    }
    standing[0] = staying(standing[0], held, flushed, 0);
}

impl Column {
    pub(crate) fn bare() -> Column
        ensures { IsBare result }
    {
        Column {
            standing: [0; 8],
            entered: [0; 8],
            own: [0; 8],
            first: 0,
        }
    }

    // Says of an occurrence in which level it runs.
    pub(crate) fn place(&mut self, level: u8, bit: u32)
        requires level { level ≤ 8 }
        requires bit { bit < 64 }
        ensures own { (stage other : ℕ) → stage < 8 → has (slice_index self.new.own stage) other ≡ (has (slice_index self.old.own stage) other || (nat_eq (stage + 1) level && nat_eq other bit)) }
        ensures standing { self.new.standing ≡ self.old.standing }
        ensures entered { self.new.entered ≡ self.old.entered }
        ensures first { self.new.first ≡ self.old.first }
    {
        if level > 0 {
            let stage = level as usize - 1;
            self.own[stage] = with_bit(self.own[stage], bit);
        }
    }

    // Records an occurrence under an activator of a level.
    pub(crate) fn enter(&mut self, level: u8, bit: u32)
        requires level { level ≤ 8 }
        requires bit { bit < 64 }
        ensures entered { (stage other : ℕ) → stage < 8 → has (slice_index self.new.entered stage) other ≡ (has (slice_index self.old.entered stage) other || (nat_eq (stage + 1) level && nat_eq other bit)) }
        ensures first { (other : ℕ) → has self.new.first other ≡ (has self.old.first other || (nat_eq level 0 && nat_eq other bit)) }
        ensures standing { self.new.standing ≡ self.old.standing }
        ensures own { self.new.own ≡ self.old.own }
    {
        if level > 0 {
            let stage = level as usize - 1;
            self.entered[stage] = with_bit(self.entered[stage], bit);
        } else {
            self.first = with_bit(self.first, bit);
        }
    }

    // Those that are due in a stage.
    pub(crate) fn due(&self, stage: u32) -> u64
        requires { stage < 8 }
        ensures { (bit : ℕ) → has result bit ≡ due_in self.now stage bit }
    {
        let stage = stage as usize;
        if stage == 0 {
            self.own[0] & (self.standing[0] | self.first)
        } else {
            self.own[stage] & self.standing[stage]
        }
    }

    pub(crate) fn stands(&self, stage: u32, bit: u32) -> bool
        requires stage { stage < 8 }
        requires bit { bit < 64 }
        ensures { result ≡ has (slice_index self.now.standing stage) bit }
    {
        (self.standing[stage as usize] >> bit) & 1 == 1
    }

    // Ends an edge.
    pub(crate) fn finish(&mut self, held: u8, flushed: u8)
        ensures standing { (stage bit : ℕ) → stage < 8 → bit < 64 → has (slice_index self.new.standing stage) bit ≡ ends (λ s. has (slice_index self.old.standing s) bit) (λ s. has (slice_index self.old.own s) bit) (λ s. has (slice_index self.old.entered s) bit) held flushed stage }
        ensures entered { (stage : ℕ) → slice_index self.new.entered stage ≡ 0 }
        ensures first { self.new.first ≡ 0 }
        ensures own { self.new.own ≡ self.old.own }
    {
        let own = self.own;
        let entered = self.entered;
        finish_words(&mut self.standing, &own, &entered, held, flushed);
        self.entered = [0; 8];
        self.first = 0;
    }
}
