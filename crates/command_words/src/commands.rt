//! The commands.

use engine_commands::Task;
use hex_files::MemoryFormat;
use lisa_outcomes::RunNames;

/// What the words ask for: a command with its files and numbers.
#[derive(Clone, Copy, Debug)]
pub enum Command<'a> {
    /// `fmt DESC`
    Format {
        description: &'a str,
    },
    /// `check DESC`
    Check {
        description: &'a str,
    },
    /// `verilog DESC`
    Verilog {
        description: &'a str,
    },
    /// `asm DESC SOURCE`
    Assemble {
        description: &'a str,
        source: &'a str,
    },
    /// `link DESC OBJECT ..`
    Link {
        description: &'a str,
        objects: &'a [String],
    },
    /// `dis DESC IMAGE`
    Disassemble {
        description: &'a str,
        image: &'a str,
    },
    /// `gen DESC NUMBER COUNT`
    Generate {
        description: &'a str,
        number: u64,
        count: u32,
    },
    /// `soak DESC VFILE NUMBER COUNT N`
    Soak {
        description: &'a str,
        verilog: &'a str,
        number: u64,
        count: u32,
        edges: u32,
    },
    /// `tohex DESC IMAGE MEMORY` or `tomem DESC IMAGE MEMORY`
    Export {
        format: MemoryFormat,
        description: &'a str,
        image: &'a str,
        memory: &'a str,
    },
    /// `fromhex DESC FILE MEMORY` or `frommem DESC FILE MEMORY`
    Import {
        format: MemoryFormat,
        description: &'a str,
        file: &'a str,
        memory: &'a str,
    },
    /// `unvcd FILE`
    Replay {
        dump: &'a str,
    },
    /// `occupancy DESC IMAGE SCHED N`
    Occupancy {
        names: RunNames<'a>,
        edges: u32,
    },
    /// `run DESC IMAGE SCHED N`, `trace DESC IMAGE SCHED N`, `vcd DESC IMAGE SCHED N`, `board DESC IMAGE BOARD N` or
    /// `debug DESC IMAGE SCHED`
    Simulate {
        names: RunNames<'a>,
        task: Task,
    },
    /// `clock VFILE IMAGE SCHED N`, `clocktrace VFILE IMAGE SCHED N`, `vvcd VFILE IMAGE SCHED N`,
    /// `vboard VFILE IMAGE BOARD N` or `vdebug VFILE IMAGE SCHED`
    Clock {
        names: RunNames<'a>,
        task: Task,
    },
}
