//! What is noted, and what is found.

ghost use Rattle.std.specs.Prelude.{◌≡◌, ◌<◌, ℕ, List, Option, None, Some, IfOk, IfSome, OnOk};
ghost use Rattle.std.specs.Prelude.{OnErr, IsTrue, length};
ghost use Rattle.name_tables.specs.TableViews.{value_of};
ghost use Rattle.noted_names.specs.declared.places.Places.{Places};
ghost use Rattle.noted_names.specs.Memos.{Adds, IsRemembered, IsSame, Remembers};

use crate::entry::Entry;
use crate::memo::Memo;
use crate::places::Places;
use lisa_words::Name;
use std::alloc::{AllocError, Global};
use std::collections::BTreeMap;

// Where a name is looked for first, before it is cut to the number of slots.
fn first_slot(name: &Name) -> usize {
    let bytes = name.as_bytes();
    if bytes.is_empty() {
        return 0;
    }
    let first = bytes[0] as usize;
    let last = bytes[bytes.len() - 1] as usize;
    first * 7 + last * 29 + (bytes.len() % 64) * 5
}

// At least two slots for each name, where there are no more than 256 of them.
fn slot_count(names: usize) -> usize {
    if names == 0 {
        1
    } else if names <= 4 {
        8
    } else if names <= 16 {
        32
    } else if names <= 64 {
        128
    } else {
        512
    }
}

#[tactic(auto, using(crate::proofs::Kept::no_slot_yet, crate::proofs::Kept::one_slot_more))]
fn no_slots(alloc: Global, count: usize) -> Result<Vec<Option<Entry>>, AllocError>
    ensures { IfOk result (λ slots. (f : List ℕ → Option Places) → Remembers f slots.items) }
{
    let mut slots = Vec::new(alloc);
    'slots: for _slot in 0..count {
        slots.push(None)?;
    }
    Ok(slots)
}

// The places of a name, if it stands at this slot.
#[tactic(auto, using(crate::proofs::Kept::kept_at))]
fn at(slots: &[Option<Entry>], slot: usize, name: &Name) -> Option<Places>
    ensures { IsRemembered slots.now name.now result }
{
    if slot >= slots.len() {
        return None;
    }
    match &slots[slot] {
        None => None,
        Some(entry) => {
            if entry.name == *name {
                Some(entry.places)
            } else {
                None
            }
        }
    }
}

// The places of a name, if it stands at one of its slots.
fn at_its_slots(slots: &[Option<Entry>], name: &Name) -> Option<Places>
    ensures { IsRemembered slots.now name.now result }
{
    let last = slots.len().saturating_sub(1);
    let first = first_slot(name);
    if let Some(places) = at(slots, first & last, name) {
        return Some(places);
    }
    if let Some(places) = at(slots, first.wrapping_add(1) & last, name) {
        return Some(places);
    }
    at(slots, first.wrapping_add(2) & last, name)
}

// Whether a slot is there and has no name.
fn is_free(slots: &[Option<Entry>], slot: usize) -> bool
    ensures { IsTrue result → slot < length slots.now }
{
    slot < slots.len() && slots[slot].is_none()
}

// A slot of a name that is free.
fn free_slot(slots: &[Option<Entry>], name: &Name) -> Option<usize>
    ensures { IfSome result (λ slot. slot < length slots.now) }
{
    let last = slots.len().saturating_sub(1);
    let first = first_slot(name);
    if is_free(slots, first & last) {
        return Some(first & last);
    }
    if is_free(slots, first.wrapping_add(1) & last) {
        return Some(first.wrapping_add(1) & last);
    }
    if is_free(slots, first.wrapping_add(2) & last) {
        return Some(first.wrapping_add(2) & last);
    }
    None
}

impl Memo {
    /// Nothing is noted yet; the slots are for so many names.
    pub fn new(alloc: Global, names: usize) -> Result<Memo, AllocError>
        ensures { IfOk result (λ memo. (n : List ℕ) → value_of memo.table n ≡ None) }
    {
        Ok(Memo {
            table: BTreeMap::new(alloc),
            slots: no_slots(alloc, slot_count(names))?,
        })
    }

    /// What is noted of a name.
    pub fn find(&self, name: &Name) -> Option<Places>
        ensures { result ≡ value_of self.now.table name.now }
    {
        if let Some(places) = at_its_slots(&self.slots, name) {
            return Some(places);
        }
        self.table.get(name).copied()
    }

    // Notes a name that isn't noted yet.
    fn put(&mut self, name: &Name, places: Places) -> Result<(), AllocError>
        requires { value_of self.old.table name.now ≡ None }
        ensures ok { OnOk result (Adds self.old.table self.new.table name.now places) }
        ensures err { OnErr result (IsSame self.old.table self.new.table) }
    {
        let key = name.clone()?;
        let entry = Entry {
            name: name.clone()?,
            places,
        };
        self.table.insert(key, places)?;
        if let Some(slot) = free_slot(&self.slots, name) {
            self.slots[slot] = Some(entry);
        }
        Ok(())
    }

    /// Notes a name with its places. A name that is noted keeps those that it has.
    pub fn note(&mut self, name: &Name, places: Places) -> Result<(), AllocError>
        ensures ok { OnOk result (Adds self.old.table self.new.table name.now places) }
        ensures err { OnErr result (IsSame self.old.table self.new.table) }
    {
        if self.find(name).is_some() {
            return Ok(());
        }
        self.put(name, places)?;
        Ok(())
    }
}
