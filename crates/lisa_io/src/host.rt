// The real files and streams. Of those no content is told.
ghost use Rattle.std.specs.Prelude.{◌≡◌, List, ℕ, None};
ghost use Rattle.std.specs.Io.{ReadsAtMost};
ghost use Rattle.lisa_io.specs.Gathered.{front_of_itself};

use crate::outside::{Failed, Files, Flush, Sink, Source};
use std::alloc::Global;
use std::io::{Read, Seek, SeekFrom, Write};
use std::{fs, io, rt};

// A file that stands open at a place. Its name is kept where there was memory for it.
#[derive(Drop)]
struct OpenFile<F: Read + Drop> {
    name: Option<String>,
    file: F,
    at: u64,
}

impl<F: Read + Drop> OpenFile<F> {
    fn is_at(&self, name: &str, from: u64) -> bool {
        match &self.name {
            Some(kept) => kept.as_str() == name && self.at == from,
            None => false,
        }
    }
}

/// Real files.
///
/// The file that was read last stays open at its place, and a read that goes on from there reads
/// on in it. It is closed at its end, and where another one is read.
#[derive(Drop)]
pub struct HostFiles<R: rt::Files + Drop> {
    alloc: Global,
    runtime: R,
    open: Option<OpenFile<R::File>>,
    faults: u64,
}

impl<R: rt::Files + Drop> HostFiles<R> {
    /// The files of a runtime. The names of open files are kept in memory of `alloc`.
    pub fn new(alloc: Global, runtime: R) -> Self
        ensures { (name : List ℕ) → ⟦<HostFiles<R> as Files>⟧.faults result name ≡ 0 }
    {
        HostFiles {
            alloc,
            runtime,
            open: None,
            faults: 0,
        }
    }

    fn open_at(&self, name: &str, from: u64) -> io::Result<OpenFile<R::File>> {
        let mut file = fs::open(&self.runtime, name)?;
        if from > 0 {
            file.seek(SeekFrom::Start(from))?;
        }
        Ok(OpenFile {
            name: String::from_str(self.alloc, name).ok(),
            file,
            at: from,
        })
    }

    // Reads on in the open file, or opens another one.
    fn read_on(&mut self, name: &str, from: u64, into: &mut [u8]) -> io::Result<usize>
        ensures bound { ReadsAtMost result into.new }
        ensures faults { self.new.faults ≡ self.old.faults }
    {
        let mut open = match self.open.take() {
            Some(open) if open.is_at(name, from) => open,
            _ => self.open_at(name, from)?,
        };
        let count = open.file.read(into)?;
        if count > 0 {
            open.at = from.saturating_add(count as u64);
            self.open = Some(open);
        }
        Ok(count)
    }
}

impl<R: rt::Files + Drop> Files for HostFiles<R> {
    ghost held = { λ _. None };

    ghost faults = { λ f _. f.faults };

    fn read(&mut self, name: &str, from: u64, into: &mut [u8]) -> Result<usize, Failed> {
        if into.is_empty() {
            return Ok(0);
        }
        match self.read_on(name, from, into) {
            Ok(count) => Ok(count),
            Err(_) => {
                self.faults = self.faults.saturating_add(1);
                Err(Failed)
            }
        }
    }
}

/// Any reader of std. It tells what is left where the reader does; a real stream doesn't.
#[derive(Drop)]
pub struct HostSource<R: Read + Drop> {
    reader: R,
    faults: u64,
}

impl<R: Read + Drop> HostSource<R> {
    /// A source that takes by single reads.
    pub fn new(reader: R) -> Self
        ensures left { ⟦<HostSource<R> as Source>⟧.left result ≡ R.remaining reader }
        ensures faults { ⟦<HostSource<R> as Source>⟧.faults result ≡ 0 }
    {
        HostSource { reader, faults: 0 }
    }
}

impl<R: Read + Drop> Source for HostSource<R> {
    ghost left = { λ s. R.remaining s.reader };

    ghost faults = { λ s. s.faults };

    fn take(&mut self, into: &mut [u8]) -> Result<usize, Failed> {
        if into.is_empty() {
            return Ok(0);
        }
        match self.reader.read(into) {
            Ok(count) => Ok(count),
            Err(_) => {
                self.faults = self.faults.saturating_add(1);
                Err(Failed)
            }
        }
    }
}

/// Any writer of std. It tells what was written where the writer does; a real stream doesn't.
#[derive(Drop)]
pub struct HostSink<W: Write + Drop> {
    writer: W,
    faults: u64,
}

impl<W: Write + Drop> HostSink<W> {
    /// A sink that puts by single writes.
    pub fn new(writer: W) -> Self
        ensures written { ⟦<HostSink<W> as Sink>⟧.written result ≡ W.contents writer }
        ensures faults { ⟦<HostSink<W> as Sink>⟧.faults result ≡ 0 }
    {
        HostSink { writer, faults: 0 }
    }
}

impl<W: Write + Drop> Sink for HostSink<W> {
    ghost written = { λ s. W.contents s.writer };

    ghost faults = { λ s. s.faults };

    fn put(&mut self, piece: &[u8]) -> Result<usize, Failed> {
        if piece.is_empty() {
            return Ok(0);
        }
        match self.writer.write(piece) {
            Ok(count) if count > 0 => Ok(count),
            _ => {
                self.faults = self.faults.saturating_add(1);
                Err(Failed)
            }
        }
    }
}

impl<W: Write + Drop> Flush for HostSink<W> {
    ghost sent = { λ s. W.contents s.writer };

    fn flush(&mut self) -> Result<(), Failed> {
        match self.writer.flush() {
            Ok(()) => Ok(()),
            Err(_) => {
                self.faults = self.faults.saturating_add(1);
                Err(Failed)
            }
        }
    }

    ghost in_order = { λ s. front_of_itself (W.contents s.writer) };
}
