//! Files, sources and sinks: their meanings, fakes in memory, and the real ones.
//!
//! Each object counts its faults, and a call answers a fault only where the count rose. What an
//! object holds or has left is told where it is known: by the fakes, and not by the real ones.
//! `Buffered` gathers what is put into a real stream, until the library flushes it.
#![tactic(auto)]

mod buffered;
mod calls;
mod files;
mod host;
mod memory;
mod outside;
mod whole;

pub use buffered::Buffered;
pub use files::{MemFile, MemFiles};
pub use host::{HostFiles, HostSink, HostSource};
pub use memory::{MemSink, MemSource};
pub use outside::{Failed, Files, Flush, Sink, Source};
pub use whole::{ReadEnd, put_all, read_whole};
