//! What the parts of a description become.

ghost use Rattle.std.specs.Prelude.{ℕ, ◌≡◌, ◌≤◌, IfOk, OnOk};
ghost use Rattle.step_program.specs.Programs.{Temp};
ghost use Rattle.step_pieces.specs.Drafts.{leaf_tree};
ghost use Rattle.pipeline_time.specs.Cores.{Core};
ghost use Rattle.lowered_time.specs.Building.{Operations, Layout, held_at, open_at};
ghost use Rattle.lowered_time.specs.Code.{Adds, Makes};

use lisa_words::NoMemory;
use std::alloc::Global;
use step_pieces::{Draft, Leaf};

/// What the parts of a description become, and where things stand. A row is where a word stands with what there is to know of it; without
/// one the word is 0. A part is put behind a draft. Want of memory, or of numbers for temps, is the only other answer of each.
pub trait Parts {
    /// What lasts from edge to edge, and a moment of an edge.
    ghost Lasting: { Type 0 };

    ghost Moment: { Type 0 };

    /// The description, as far as time goes.
    ghost core: { Self → Core Lasting Moment };

    /// What its parts become.
    ghost operations: { Self → Operations };

    /// Where bits and words stand.
    ghost layout: { Self → Layout };

    fn is_root(&self, number: u32) -> bool
        ensures { result ≡ (core self.now).is_root number };

    /// The BEHAVIOR of an occurrence, with the word of a row, where the guard isn't 0.
    fn behavior(
        &self,
        alloc: Global,
        number: u32,
        row: Option<u32>,
        guard: Leaf,
        draft: &mut Draft,
    ) -> Result<(), NoMemory>
        ensures { OnOk result (Adds ((operations self.now).behavior number row (leaf_tree guard)) draft.old draft.new) };

    /// Whether an occurrence isn't the root, and has no BEHAVIOR that does anything.
    fn is_idle(&self, number: u32) -> bool
        ensures { result ≡ (operations self.now).idle number };

    /// The condition of an `if`: whose, its place among that one's, and the row.
    fn condition(
        &self,
        alloc: Global,
        number: u32,
        test: u32,
        row: Option<u32>,
        draft: &mut Draft,
    ) -> Result<Leaf, NoMemory>
        ensures { IfOk result (λ out. Makes ((operations self.now).condition number test row) draft.old draft.new out) };

    /// The word that the root takes.
    fn fetch(&self, alloc: Global, draft: &mut Draft) -> Result<Leaf, NoMemory>
        ensures { IfOk result (λ out. Makes (operations self.now).fetch draft.old draft.new out) };

    /// A row gets a word.
    fn load(&self, alloc: Global, row: u32, word: Leaf, draft: &mut Draft) -> Result<(), NoMemory>
        ensures { OnOk result (Adds ((operations self.now).load row (leaf_tree word)) draft.old draft.new) };

    /// The word of a row.
    fn word(&self, row: u32) -> Result<Leaf, NoMemory>
        ensures { IfOk result (λ out. leaf_tree out ≡ (operations self.now).word row) };

    /// Whether some instruction has the word of a row.
    fn decodes(&self, row: u32) -> Result<Leaf, NoMemory>
        ensures { IfOk result (λ out. leaf_tree out ≡ (operations self.now).decodes row) };

    /// Whether the instruction of a row's word chooses an occurrence past the root.
    fn chooses(&self, row: u32, number: u32) -> Result<Leaf, NoMemory>
        ensures { IfOk result (λ out. leaf_tree out ≡ (operations self.now).chooses row number) };

    /// Whether a stall named a level so far.
    fn stalled(&self, level: u8) -> Result<Leaf, NoMemory>
        ensures { IfOk result (λ out. leaf_tree out ≡ (operations self.now).stalled level) };

    /// Whether a flush named a level so far.
    fn flushed(&self, level: u8) -> Result<Leaf, NoMemory>
        ensures { IfOk result (λ out. leaf_tree out ≡ (operations self.now).flushed level) };

    /// The boundaries as the edge ends. Which levels are held and which are open stands in temps: `held_at` and `open_at` say where.
    fn close(&self, alloc: Global, draft: &mut Draft) -> Result<(), NoMemory>
        ensures { OnOk result (Adds ((operations self.now).close (λ level. Temp (held_at level)) (λ level. Temp (open_at level))) draft.old draft.new) };

    /// The item that has the bit of an occurrence at a level.
    fn bit(&self, level: u8, number: u32) -> Option<u32>
        ensures { result ≡ (layout self.now).bit level number };

    /// The item that has the word of a level.
    fn place_of_word(&self, level: u8) -> Option<u32>
        ensures { result ≡ (layout self.now).word level };

    /// The width of words.
    fn width(&self) -> u32
        ensures width { result ≡ (layout self.now).width }
        ensures at_least_one { 1 ≤ result }
        ensures at_most_64 { result ≤ 64 };
}
