// Files in memory, which fail at the calls that they are told to.
ghost use Rattle.std.specs.Prelude.{◌≡◌, ◌≢◌, ◌↔◌, ◌⊎◌, ◌<◌, ◌≤◌, ◌+◌, ◌-◌, ◌^◌, ◌∷◌, min, List, ℕ, Ok, Some, None, IsErr, IsSome, IfOk, IfSome, true, false, find, length, slice_index_or, string_bytes};
ghost use Rattle.std.specs.Io.{ReadsAtMost};
ghost use Rattle.lisa_io.specs.Causes.{HasCause};
ghost use Rattle.lisa_io.specs.Contents.{ReadsNext, Tells, TellsNone};
ghost use Rattle.lisa_io.specs.Memory.{named, file_name, file_content, file_bytes, file_faults};

use crate::calls::Calls;
use crate::memory::copy_from;
use crate::outside::{Failed, Files};

/// A file in memory.
#[derive(Drop)]
pub struct MemFile {
    name: String,
    bytes: Vec<u8>,
    faults: u64,
}

impl MemFile {
    /// A file of this name with these bytes.
    pub fn new(name: String, bytes: Vec<u8>) -> MemFile
        ensures name { file_name result ≡ string_bytes name }
        ensures bytes { file_content result ≡ bytes.items }
    {
        MemFile {
            name,
            bytes,
            faults: 0,
        }
    }
}

/// Files in memory. Of two files with one name the first counts.
#[derive(Drop)]
pub struct MemFiles {
    files: Vec<MemFile>,
    calls: Calls,
    missing: u64,
}

impl MemFiles {
    ghost use Rattle.lisa_io.specs.Memory.{files_calls};

    /// The files, and the numbers of the reads that are to fail, counted from 1.
    pub fn new(mut files: Vec<MemFile>, failing: Vec<u64>) -> MemFiles
        ensures held { ⟦<MemFiles as Files>⟧.held result ≡ Some (file_bytes files.items) }
        ensures faults { (name : List ℕ) → ⟦<MemFiles as Files>⟧.faults result name ≡ 0 }
        ensures calls { files_calls result ≡ record { failing = failing; made = 0 } }
    {
        forget_faults(&mut files);
        MemFiles {
            files,
            calls: Calls::new(failing),
            missing: 0,
        }
    }
}

// Starts all counts of faults at 0.
fn forget_faults(files: &mut [MemFile])
    ensures bytes { file_bytes files.new ≡ file_bytes files.old }
    ensures faults { (name : List ℕ) → file_faults files.new 0 name ≡ 0 }
{
    for file in files.iter_mut() {
        file.faults = 0;
    }
}

// The place of the first file of a name.
fn place_of(files: &[MemFile], name: &str) -> Option<usize>
    ensures none { result ≡ None → find (named name.now) files.now ≡ None }
    ensures within { IfSome result (λ at. at < length files.now) }
    ensures found { IfSome result (λ at. (d : _) → find (named name.now) files.now ≡ Some (slice_index_or files.now at d)) }
    ensures passes { IfSome result (λ at. (d : _) → named name.now (slice_index_or files.now at d) ≡ true) }
    ensures first { IfSome result (λ at. (d : _) (k : ℕ) → k < at → named name.now (slice_index_or files.now k d) ≡ false) }
{
    for (place, file) in files.iter().enumerate() {
        if file.name.as_str() == name {
            return Some(place);
        }
    }
    None
}

// One more fault.
fn fail(file: &mut MemFile)
    ensures name { file.new.name ≡ file.old.name }
    ensures bytes { file.new.bytes ≡ file.old.bytes }
    ensures before { file.old.faults < 2 ^ 64 }
    ensures faults { file.new.faults ≡ min (file.old.faults + 1) (2 ^ 64 - 1) }
{
    file.faults = file.faults.saturating_add(1);
}

impl Files for MemFiles {
    ghost use Rattle.lisa_io.specs.Memory.{files_held, files_faults, files_calls, IsNextCall, IsToFail};

    ghost held = { λ m. Some (files_held m) };

    ghost faults = { λ m name. files_faults m name };

    fn read(&mut self, name: &str, from: u64, into: &mut [u8]) -> Result<usize, Failed>
        ensures held { Some (files_held self.new) ≡ Some (files_held self.old) }
        ensures bound { ReadsAtMost result into.new }
        ensures bytes { (bytes : List ℕ) → Tells (Some (files_held self.old)) name.now bytes → IfOk result (ReadsNext bytes from into.new) }
        ensures missing { TellsNone (Some (files_held self.old)) name.now → 0 < length into.old → IsErr result }
        ensures empty { length into.old ≡ 0 → result ≡ Ok 0 }
        ensures cause { HasCause (files_faults self.old name.now) (files_faults self.new name.now) result }
        ensures later { (other : List ℕ) → files_faults self.old other ≤ files_faults self.new other }

        // It fails at the calls that it was told to and where there is no such file, and else
        // reads what there is room for.
        ensures calls { IsNextCall (files_calls self.old) (files_calls self.new) }
        ensures fails { IsErr result ↔ ((IsToFail (files_calls self.old) ⊎ (files_held self.old name.now ≡ None)) × (0 < length into.old)) }
        ensures others { (other : List ℕ) → other ≢ name.now → IsSome (files_held self.old other) → files_faults self.new other ≡ files_faults self.old other }
        ensures reads { (bytes : List ℕ) → files_held self.old name.now ≡ Some bytes → IfOk result (λ k. k ≡ min (length bytes - from) (length into.old)) }
    {
        let fails = self.calls.fails();
        if into.is_empty() {
            return Ok(0);
        }
        let Some(at) = place_of(&self.files, name) else {
            self.missing = self.missing.saturating_add(1);
            return Err(Failed);
        };
        if fails {
            fail(&mut self.files[at]);
            return Err(Failed);
        }
        let bytes = &self.files[at].bytes;
        if from > bytes.len() as u64 {
            return Ok(0);
        }
        Ok(copy_from(bytes, from as usize, into))
    }
}
