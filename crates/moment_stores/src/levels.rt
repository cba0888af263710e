// Levels of stages.
ghost use Rattle.std.specs.Prelude.{◌≡◌, ◌<◌, ◌+◌, [], ℕ, false, suc, IfOk, length, reverse, slice_index_or};
ghost use Rattle.std.specs.Vec.{vec_len, vec_capacity};
ghost use Rattle.pipeline_time.specs.Edges.{is_held, is_flushed};
ghost use Rattle.lisa_meaning.specs.Moments.{noted};
ghost use Rattle.moment_stores.specs.Levels.{AreNoted};

use std::alloc::{AllocError, Global};

/// Levels of stages, each once, in the order in which they were noted.
#[derive(Drop)]
pub struct Levels {
    noted: Vec<usize>,
    marks: Vec<bool>,
    ghost sound: { AreNoted (reverse noted.items) marks.items (vec_capacity noted) },
}

// Takes all marks away.
fn clear_marks(marks: &mut [bool])
    ensures { (level : ℕ) → level < length marks.new → slice_index_or marks.new level false ≡ false }
{
    for mark in marks.iter_mut() {
        *mark = false;
    }
}

impl Levels {
    /// No level is noted. There is room for the levels below a number.
    pub fn make(alloc: Global, count: usize) -> Result<Levels, AllocError>
        ensures none { IfOk result (λ levels. levels.noted.items ≡ []) }
        ensures count { IfOk result (λ levels. vec_len levels.marks ≡ count) }
    {
        let noted = Vec::with_capacity(alloc, count)?;
        let marks = vec![in alloc; false; count]?;
        Ok(Levels { noted, marks })
    }

    /// Notes the level of a stage, the newest, unless it is noted.
    pub fn note(&mut self, stage: usize)
        requires { stage + 1 < vec_len self.old.marks }
        ensures noted { reverse self.new.noted.items ≡ noted (suc stage) (reverse self.old.noted.items) }
        ensures count { vec_len self.new.marks ≡ vec_len self.old.marks }
    {
        let _count = self.marks.len();
        let level = stage + 1;
        if self.marks[level] {
            return;
        }
        self.marks[level] = true;
        self.noted.push_reserved(level);
    }

    /// Whether a stage of the level, or a later one, is noted.
    pub fn is_held(&self, level: usize) -> bool
        ensures { result ≡ is_held (reverse self.now.noted.items) level }
    {
        self.noted.iter().rev().any(|noted| level <= *noted)
    }

    /// Whether the level is noted.
    pub fn is_flushed(&self, level: usize) -> bool
        ensures { result ≡ is_flushed (reverse self.now.noted.items) level }
    {
        self.noted.iter().rev().any(|noted| *noted == level)
    }

    /// Forgets all levels.
    pub fn clear(&mut self)
        ensures none { self.new.noted.items ≡ [] }
        ensures count { vec_len self.new.marks ≡ vec_len self.old.marks }
    {
        self.noted.clear();
        clear_marks(&mut self.marks);
    }
}
