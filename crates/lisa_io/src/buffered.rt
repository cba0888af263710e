// A sink that gathers small pieces in a room of its own, and sends them on in large ones.
ghost use Rattle.std.specs.Prelude.{◌≡◌, ◌<◌, ◌≤◌, ◌++◌, List, ℕ, OnOk, length, take, drop, vec_len};
ghost use Rattle.std.specs.Io.KnownBytes.{Keeps, append_known};
ghost use Rattle.lisa_io.specs.Causes.{HasCause};
ghost use Rattle.lisa_io.specs.Contents.{IsFront};
ghost use Rattle.lisa_io.specs.Gathered.{gathered, front_of_gathered};

use crate::memory::write_at;
use crate::outside::{Failed, Flush, Sink};

/// A sink over another one, which gathers what is put until its room is full or it is flushed.
///
/// What it still holds back when it is dropped is lost: flush it first. A flush that fails drops
/// exactly what was sent on, so that a later one goes on from there.
#[derive(Drop)]
pub struct Buffered<O: Sink + Drop> {
    inner: O,
    room: Vec<u8>,
    sent: usize,
    filled: usize,
    ghost in_order: { sent ≤ filled },
    ghost within: { filled ≤ vec_len room },
}

impl<O: Sink + Drop> Buffered<O> {
    /// The sink to send on to, and the room; an empty room gathers nothing.
    pub fn new(inner: O, room: Vec<u8>) -> Buffered<O>
        ensures written { ⟦<Buffered<O> as Sink>⟧.written result ≡ O.written inner }
        ensures sent { ⟦<Buffered<O> as Flush>⟧.sent result ≡ O.written inner }
        ensures faults { ⟦<Buffered<O> as Sink>⟧.faults result ≡ O.faults inner }
    {
        Buffered {
            inner,
            room,
            sent: 0,
            filled: 0,
        }
    }

    /// The sink below, without what is still held back.
    pub fn into_inner(self) -> O
        ensures written { O.written result ≡ ⟦<Buffered<O> as Flush>⟧.sent self }
        ensures faults { O.faults result ≡ ⟦<Buffered<O> as Sink>⟧.faults self }
    {
        self.inner
    }

    // Sends on some of what is held back.
    fn send_some(&mut self) -> Result<(), Failed>
        requires { self.old.sent < self.old.filled }
        ensures written { Keeps (gathered (O.written self.old.inner) self.old.room.items self.old.sent self.old.filled)
            (gathered (O.written self.new.inner) self.new.room.items self.new.sent self.new.filled) }
        ensures grows { IsFront (O.written self.old.inner) (O.written self.new.inner) }
        ensures filled { self.new.filled ≡ self.old.filled }
        ensures room { self.new.room ≡ self.old.room }
        ensures nearer { OnOk result (self.old.sent < self.new.sent) }
        ensures cause { HasCause (O.faults self.old.inner) (O.faults self.new.inner) result }
    {
        let count = self.inner.put(&self.room[self.sent..self.filled])?;
        self.sent += count;
        Ok(())
    }

    // Sends on all that is held back.
    fn send_all(&mut self) -> Result<(), Failed>
        ensures written { Keeps (gathered (O.written self.old.inner) self.old.room.items self.old.sent self.old.filled)
            (gathered (O.written self.new.inner) self.new.room.items self.new.sent self.new.filled) }
        ensures grows { IsFront (O.written self.old.inner) (O.written self.new.inner) }
        ensures empty { OnOk result (self.new.filled ≡ 0) }
        ensures room { self.new.room ≡ self.old.room }
        ensures cause { HasCause (O.faults self.old.inner) (O.faults self.new.inner) result }
    {
        while self.sent < self.filled {
            self.send_some()?;
        }
        self.sent = 0;
        self.filled = 0;
        Ok(())
    }
}

impl<O: Sink + Drop> Sink for Buffered<O> {
    ghost written = { λ s. gathered (O.written s.inner) s.room.items s.sent s.filled };

    ghost faults = { λ s. O.faults s.inner };

    fn put(&mut self, piece: &[u8]) -> Result<usize, Failed> {
        if piece.is_empty() {
            return Ok(0);
        }
        if piece.len() >= self.room.len() {
            self.send_all()?;
            return self.inner.put(piece);
        }
        if self.filled == self.room.len() {
            self.send_all()?;
        }
        let count = piece.len().min(self.room.len() - self.filled);
        write_at(&mut self.room, self.filled, &piece[..count]);
        self.filled += count;
        Ok(count)
    }
}

impl<O: Sink + Drop> Flush for Buffered<O> {
    ghost sent = { λ s. O.written s.inner };

    fn flush(&mut self) -> Result<(), Failed> {
        self.send_all()
    }

    ghost in_order = { λ s. front_of_gathered (O.written s.inner) s.room.items s.sent s.filled };
}
