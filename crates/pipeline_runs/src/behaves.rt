//! What operations do in an edge.

ghost use Rattle.std.specs.Prelude.{◌≡◌, ℕ, List, suc, ◌<◌};
ghost use Rattle.activation_bits.specs.Members.{has};
ghost use Rattle.pipeline_time.specs.Edges.{is_held, is_flushed};
ghost use Rattle.pipeline_time.specs.Cores.{Core};

use lisa_activation::Queues;

/// What operations do, read and decide, over a memory that an edge changes.
pub trait Behaves {
    /// What lasts from edge to edge, and a moment of an edge.
    ghost Lasting: { Type 0 };

    ghost Moment: { Type 0 };

    /// The description, as far as time goes.
    ghost core: { Self → Core Lasting Moment };

    /// What lasts, between edges.
    ghost lasting: { Self → Lasting };

    /// How far the edge has come.
    ghost moment: { Self → Moment };

    /// What an edge keeps beside that, and what it is when one begins.
    ghost Kept: { Type 0 };

    ghost kept: { Self → Kept };

    ghost begun: { Self → Kept };

    /// The values of pins with which an edge may begin.
    ghost takes: { Self → List ℕ → Type 0 };

    /// Begins an edge, with the values of the pins.
    fn begin(&mut self, pins: &[u64])
        requires { takes self.old pins.now }
        ensures kept { kept self.new ≡ begun self.old }
        ensures moment { moment self.new ≡ (core self.old).begin pins.now (lasting self.old) }
        ensures core { core self.new ≡ core self.old };

    /// Does the BEHAVIOR of an occurrence with a word.
    fn behave(&mut self, number: u32, word: u64)
        ensures kept { kept self.new ≡ kept self.old }
        ensures moment { moment self.new ≡ (core self.old).behave number word (moment self.old) }
        ensures core { core self.new ≡ core self.old };

    /// Ends an edge.
    fn close(&mut self)
        ensures kept { kept self.new ≡ kept self.old }
        ensures lasting { lasting self.new ≡ (core self.old).close (moment self.old) }
        ensures core { core self.new ≡ core self.old };

    /// Whether the condition of an `if` holds: whose, its place among that one's, and the word.
    fn holds(&self, number: u32, test: u32, word: u64) -> bool
        ensures { result ≡ (core self.now).holds number test word (moment self.now) };

    /// Whether the instruction of a word chooses an occurrence.
    fn chooses(&self, number: u32, word: u64) -> bool
        ensures { result ≡ (core self.now).chooses number word };

    fn is_root(&self, number: u32) -> bool
        ensures { result ≡ (core self.now).is_root number };

    /// The word that the root takes.
    fn fetch(&self) -> u64
        ensures { result ≡ (core self.now).fetch (moment self.now) };

    /// The stages that are held and flushed so far, the first at bit 0.
    fn held(&self) -> u8
        ensures { (stage : ℕ) → stage < 8 → has result stage ≡ is_held ((core self.now).stalled (moment self.now)) (suc stage) };

    fn flushed(&self) -> u8
        ensures { (stage : ℕ) → stage < 8 → has result stage ≡ is_flushed ((core self.now).flushed (moment self.now)) (suc stage) };

    /// Whether some instruction has the word.
    fn decodes(&self, word: u64) -> bool
        ensures { result ≡ (core self.now).decodes word };
}

/// How far an edge has come.
#[derive(Drop)]
pub struct Edge<B> {
    pub store: B,
    pub queues: Queues,
    /// The word that the root took, where it ran and decoded.
    pub slot: Option<u64>,
}
