//! Files that a command reads whole.
ghost use Rattle.std.specs.Prelude.{◌≡◌, ◌≢◌, ◌≤◌, ◌<◌, ◌^◌, List, ℕ, IfOk, IfErr, map, length};
ghost use Rattle.lisa_io.specs.declared.whole.ReadEnd.TheVariants as read_ends;
ghost use Rattle.lisa_outcomes.specs.declared.status.End.TheVariants as ends;
ghost use Rattle.lisa_outcomes.specs.declared.status.Refusal.TheVariants as refusals;
ghost use Rattle.lisa_outcomes.specs.declared.status.FileFault.TheVariants as file_faults;
ghost use Rattle.lisa_outcomes.specs.Ends.{Loads};
ghost use Rattle.lisa_outcomes.specs.NamedFiles.{LoadsFiles, file_at};
ghost use Rattle.lisa_outcomes.specs.FileViews.{named_of, all_bytes};

use crate::status::{End, FileFault, Refusal};
use lisa_io::{Files, ReadEnd, read_whole};
use lisa_words::Name;
use std::alloc::Global;

/// A file that a command reads: its name, and how many bytes it has at most.
#[derive(Clone, Copy, Debug)]
pub struct NamedFile<'a> {
    pub name: &'a str,
    pub limit: u32,
}

// The refusal of a file that is too long.
fn too_long(alloc: Global, name: &str) -> Result<Refusal, End>
    ensures found { IfOk result (λ r. r ≡ refusals.File (file_faults.TooLong name.now)) }
    ensures other { IfErr result (λ e. e ≡ ends.NoMemory) }
{
    match Name::from_bytes(alloc, name.as_bytes()) {
        Ok(name) => Ok(Refusal::File(FileFault::TooLong { name })),
        Err(_) => Err(End::NoMemory),
    }
}

// The end of a command whose file wasn't read.
fn unread(alloc: Global, name: &str, end: ReadEnd) -> End
    ensures refused { (r : _) → result ≡ ends.Refused r → (end ≡ read_ends.TooLong) × (r ≡ refusals.File (file_faults.TooLong name.now)) }
    ensures read { result ≡ ends.ReadFault → end ≡ read_ends.ReadFault }
    ensures write { result ≢ ends.WriteFault }
{
    match end {
        ReadEnd::ReadFault => End::ReadFault,
        ReadEnd::TooLong => match too_long(alloc, name) {
            Ok(refusal) => End::Refused(refusal),
            Err(_) => End::NoMemory,
        },
        ReadEnd::NoMemory => End::NoMemory,
    }
}

// Reads a file whole, which has at most `limit` bytes.
fn load<F: Files>(alloc: Global, files: &mut F, name: &str, limit: u64) -> Result<Vec<u8>, End>
    ensures loads { Loads (F.held files.old) name.now limit (F.faults files.old name.now) (F.faults files.new name.now) result }
    ensures held { F.held files.new ≡ F.held files.old }
    ensures later { (other : List ℕ) → F.faults files.old other ≤ F.faults files.new other }
{
    match read_whole(alloc, files, name, limit) {
        Ok(bytes) => Ok(bytes),
        Err(end) => Err(unread(alloc, name, end)),
    }
}

/// Reads the files whole that a command names, in their order, or ends with the first that is too long or fails.
pub fn load_files<F: Files>(
    alloc: Global,
    files: &mut F,
    named: &[NamedFile<'_>],
) -> Result<Vec<Vec<u8>>, End>
    ensures loads { LoadsFiles all_bytes (F.held files.old) (map named_of named.now) (F.faults files.old) (F.faults files.new) result }
    ensures count { IfOk result (λ all. length (all_bytes all) ≡ length named.now) }
    ensures short { IfOk result (λ all. (place : ℕ) → length (file_at (all_bytes all) place) < 2 ^ 32) }
    ensures held { F.held files.new ≡ F.held files.old }
    ensures later { (other : List ℕ) → F.faults files.old other ≤ F.faults files.new other }
{
    let mut all = Vec::new(alloc);
    for place in 0..named.len() {
        let file = &named[place];
        let limit = file.limit;
        let bytes = match load(alloc, files, file.name, limit as u64) {
            Ok(bytes) => bytes,
            Err(end) => return Err(end),
        };
        match all.push(bytes) {
            Ok(()) => {}
            Err(_) => return Err(End::NoMemory),
        }
    }
    Ok(all)
}
