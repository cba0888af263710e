// The outside, by what it holds and how often it failed.
ghost use Rattle.std.specs.Prelude.{◌≡◌, ◌<◌, ◌≤◌, List, ℕ, Option, Ok, IsErr, IfOk, OnOk, length};
ghost use Rattle.std.specs.Io.{ReadsAtMost, WritesAtMost};
ghost use Rattle.std.specs.Io.KnownBytes.{Keeps, ReadConsumes, WriteAppends};
ghost use Rattle.lisa_io.specs.Causes.{HasCause};
ghost use Rattle.lisa_io.specs.Contents.{Held, Tells, TellsNone, ReadsNext, IsFront};

/// The outside failed.
#[derive(Clone, Copy, Debug, PartialEq, Eq)]
pub struct Failed;

pub trait Files {
    /// The files by their names, where they are told.
    ghost held: { Self → Held };

    /// How often each name failed.
    ghost faults: { Self → List ℕ → ℕ };

    /// Reads the bytes of a file from a place on.
    fn read(&mut self, name: &str, from: u64, into: &mut [u8]) -> Result<usize, Failed>
        ensures held { held self.new ≡ held self.old }
        ensures bound { ReadsAtMost result into.new }
        ensures bytes { (bytes : List ℕ) → Tells (held self.old) name.now bytes → IfOk result (ReadsNext bytes from into.new) }
        ensures missing { TellsNone (held self.old) name.now → 0 < length into.old → IsErr result }
        ensures empty { length into.old ≡ 0 → result ≡ Ok 0 }
        ensures cause { HasCause (faults self.old name.now) (faults self.new name.now) result }
        ensures later { (other : List ℕ) → faults self.old other ≤ faults self.new other };
}

pub trait Source {
    /// The bytes that are left, where they are told.
    ghost left: { Self → Option (List ℕ) };

    /// How often it failed.
    ghost faults: { Self → ℕ };

    /// Takes some of the bytes that are left.
    fn take(&mut self, into: &mut [u8]) -> Result<usize, Failed>
        ensures bound { ReadsAtMost result into.new }
        ensures bytes { ReadConsumes (left self.old) (left self.new) result into.new }
        ensures empty { length into.old ≡ 0 → result ≡ Ok 0 }
        ensures cause { HasCause (faults self.old) (faults self.new) result };
}

pub trait Sink {
    /// The bytes that were written, where they are told.
    ghost written: { Self → Option (List ℕ) };

    /// How often it failed.
    ghost faults: { Self → ℕ };

    /// Appends some of the first bytes of a piece, at least one where there is one.
    fn put(&mut self, piece: &[u8]) -> Result<usize, Failed>
        ensures bound { WritesAtMost result piece.now }
        ensures some { 0 < length piece.now → IfOk result (λ k. 0 < k) }
        ensures bytes { WriteAppends (written self.old) (written self.new) result piece.now }
        ensures empty { length piece.now ≡ 0 → result ≡ Ok 0 }
        ensures cause { HasCause (faults self.old) (faults self.new) result };
}

/// A sink that may hold back what was put until it is flushed.
pub trait Flush: Sink {
    /// The bytes that it has sent on for good, where they are told.
    ghost sent: { Self → Option (List ℕ) };

    /// Sends on what is held back. After a failure the rest is still held back.
    fn flush(&mut self) -> Result<(), Failed>
        ensures written { Keeps (Self.written self.old) (Self.written self.new) }
        ensures grows { IsFront (sent self.old) (sent self.new) }
        ensures sent { OnOk result (sent self.new ≡ Self.written self.new) }
        ensures cause { HasCause (Self.faults self.old) (Self.faults self.new) result };

    /// What it has sent on is a front of what was put.
    ghost in_order: { (sink : Self) → IsFront (sent sink) (Self.written sink) };
}
