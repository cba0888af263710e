// Locals in scope, and those of callers.
ghost use Rattle.std.specs.Prelude.{◌≡◌, ◌<◌, ◌≤◌, ◌+◌, [], ℕ, true, false, IfOk, IsSome, drop, length, option_map, slice_index_or, take};
ghost use Rattle.std.specs.Vec.{vec_len, vec_capacity};
ghost use Rattle.std.specs.Map.{lookup};
ghost use Rattle.lisa_tree.specs.Same.{same_name};
ghost use Rattle.typed_values.specs.Words.{typed_word};
ghost use Rattle.typed_values.specs.Effects.{local_put};
ghost use Rattle.moment_stores.specs.declared.locals.Local.{Local};
ghost use Rattle.moment_stores.specs.Locals.{local_pairs};

use lisa_words::Name;
use std::alloc::{AllocError, Global};
use typed_values::Value;

/// A local with its value.
#[derive(Clone, Copy)]
pub struct Local<'a> {
    pub name: &'a Name,
    pub value: Value,
}

/// Locals, the latest last. Those from the base on are in scope.
#[derive(Drop)]
pub struct Locals<'a> {
    all: Vec<Local<'a>>,
    base: usize,
    ghost inside: { base ≤ vec_len all },
}

impl<'a> Locals<'a> {
    /// None, with room for so many.
    pub fn make(alloc: Global, room: usize) -> Result<Locals<'a>, AllocError>
        ensures none { IfOk result (λ locals. locals.all.items ≡ []) }
        ensures base { IfOk result (λ locals. locals.base ≡ 0) }
        ensures room { IfOk result (λ locals. vec_capacity locals.all ≡ room) }
    {
        let all = Vec::with_capacity(alloc, room)?;
        Ok(Locals { all, base: 0 })
    }

    // Where the local of a name stands, the first in scope; behind all where there is none.
    fn place(&self, name: &Name) -> usize
        ensures from { self.now.base ≤ result }
        ensures most { result ≤ vec_len self.now.all }
        ensures before { (k : ℕ) (d : Local) → self.now.base ≤ k → k < result → same_name name.now (slice_index_or self.now.all.items k d).name.now ≡ false }
        ensures found { (d : Local) → result < vec_len self.now.all → same_name name.now (slice_index_or self.now.all.items result d).name.now ≡ true }
    {
        let mut place = self.base;
        'each: while place < self.all.len() {
            if *name == *self.all[place].name {
                return place;
            }
            place += 1;
        }
        place
    }

    /// The value of the local of a name, the first in scope.
    pub fn value(&self, name: &Name) -> Option<Value>
        ensures { option_map typed_word result ≡ lookup (same_name name.now) (local_pairs (drop self.now.base self.now.all.items)) }
    {
        let place = self.place(name);
        if place < self.all.len() {
            Some(self.all[place].value)
        } else {
            None
        }
    }

    /// Gives a local a value; a new one goes last.
    pub fn put(&mut self, name: &'a Name, value: Value)
        requires { vec_len self.old.all < vec_capacity self.old.all }
        ensures scope { local_pairs (drop self.new.base self.new.all.items) ≡ local_put (local_pairs (drop self.old.base self.old.all.items)) name.now (typed_word value) }
        ensures outer { take self.new.base self.new.all.items ≡ take self.old.base self.old.all.items }
        ensures base { self.new.base ≡ self.old.base }
        ensures count { vec_len self.new.all ≤ vec_len self.old.all + 1 }
        ensures room { vec_capacity self.new.all ≡ vec_capacity self.old.all }
    {
        let place = self.place(name);
        if place < self.all.len() {
            self.all[place].value = value;
        } else {
            self.all.push_reserved(Local { name, value });
        }
    }

    /// Gives a local that is in scope another value.
    pub fn change(&mut self, name: &Name, value: Value)
        requires { IsSome (lookup (same_name name.now) (local_pairs (drop self.old.base self.old.all.items))) }
        ensures scope { local_pairs (drop self.new.base self.new.all.items) ≡ local_put (local_pairs (drop self.old.base self.old.all.items)) name.now (typed_word value) }
        ensures outer { take self.new.base self.new.all.items ≡ take self.old.base self.old.all.items }
        ensures base { self.new.base ≡ self.old.base }
        ensures count { vec_len self.new.all ≡ vec_len self.old.all }
        ensures room { vec_capacity self.new.all ≡ vec_capacity self.old.all }
    {
        let place = self.place(name);
        if place < self.all.len() {
            self.all[place].value = value;
        }
    }

    /// How many are in scope.
    pub fn len(&self) -> usize
        ensures { result ≡ length (local_pairs (drop self.now.base self.now.all.items)) }
    {
        self.all.len() - self.base
    }

    /// Lets go of those in scope but the first ones.
    pub fn leave(&mut self, count: usize)
        ensures scope { local_pairs (drop self.new.base self.new.all.items) ≡ take count (local_pairs (drop self.old.base self.old.all.items)) }
        ensures outer { take self.new.base self.new.all.items ≡ take self.old.base self.old.all.items }
        ensures base { self.new.base ≡ self.old.base }
        ensures count { vec_len self.new.all ≤ self.old.base + count }
        ensures less { vec_len self.new.all ≤ vec_len self.old.all }
        ensures room { vec_capacity self.new.all ≡ vec_capacity self.old.all }
    {
        if count < self.all.len() - self.base {
            self.all.truncate(self.base + count);
        }
    }

    /// Takes all out of scope. Answers where those begin that were in it.
    pub fn enter(&mut self) -> usize
        ensures base { result ≡ self.old.base }
        ensures all { self.new.all.items ≡ self.old.all.items }
        ensures none { self.new.base ≡ vec_len self.old.all }
        ensures room { vec_capacity self.new.all ≡ vec_capacity self.old.all }
    {
        let base = self.base;
        self.base = self.all.len();
        base
    }

    /// Lets go of those in scope, and takes into scope what stood behind a place before them.
    pub fn exit(&mut self, base: usize)
        requires { base ≤ self.old.base }
        ensures all { self.new.all.items ≡ take self.old.base self.old.all.items }
        ensures base { self.new.base ≡ base }
        ensures room { vec_capacity self.new.all ≡ vec_capacity self.old.all }
    {
        self.all.truncate(self.base);
        self.base = base;
    }

    /// Lets go of all.
    pub fn clear(&mut self)
        ensures none { self.new.all.items ≡ [] }
        ensures base { self.new.base ≡ 0 }
        ensures room { vec_capacity self.new.all ≡ vec_capacity self.old.all }
    {
        self.all.clear();
        self.base = 0;
    }
}
