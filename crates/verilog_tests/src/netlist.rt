// The modules of step programs whose states were worked out by hand.
use lisa_engine::{Engine, Image, Item, read_schedule, write_trace};
use lisa_io::MemSink;
use lisa_words::{Name, NoMemory};
use netlist_samples::{
    Lines, clocked, double_sum, guarded_writes, mixed_steps, narrow_and_wide, read_back, swap,
    through_a_cell,
};
use std::alloc::Global;
use std::test::Fail;
use step_program::StepProgram;
use verilog_clock::Clock;

// The trace over some edges of the module that is read back from a program's text.
fn trace(
    alloc: Global,
    program: &StepProgram,
    schedule: &[u8],
    edges: u32,
) -> Result<Vec<u8>, Fail> {
    if schedule.len() > 1_000 {
        return Err(Fail::new("too long a schedule"));
    }
    let Some(module) = read_back(alloc, program)? else {
        return Err(Fail::new("no module"));
    };
    let image = Image {
        memories: Vec::new(alloc),
    };
    let mut clock = Clock::make(alloc, &module, &image)?;
    let schedule = read_schedule(alloc, schedule, clock.pins())?;
    clock.restart();
    let mut out = MemSink::new(vec![in alloc; 0; 4_096]?, 4_096, Vec::new(alloc));
    write_trace(alloc, &mut clock, &schedule, edges, &mut out)?;
    Ok(Vec::from_slice(alloc, out.bytes())?)
}

// The sample programs in turn.
fn program(alloc: Global, number: u32) -> Result<StepProgram, NoMemory> {
    match number {
        0 => through_a_cell(alloc),
        1 => swap(alloc),
        2 => guarded_writes(alloc),
        3 => narrow_and_wide(alloc),
        _ => mixed_steps(alloc, Lines(9)),
    }
}

// A cell that was written is read in the same edge; a clocked item is read as the edge began; writes are seen where their guard holds, and in
// their array; the least and the greatest width are kept; and operators are mixed.
const TRACES: [(&[u8], u32, &str); 5] = [
    (
        b"",
        3,
        "edge 0\nx 0x0\nedge 1\nx 0x2\nM[0] 0x1\nedge 2\nx 0x6\nM[0] 0x3\nedge 3\nx 0xe\nM[0] 0x7\n",
    ),
    (
        b"",
        2,
        "edge 0\na 0x1\nb 0x2\nc 0x0\nd 0x0\nedge 1\na 0x2\nb 0x1\nc 0x2\nd 0x2\n\
        edge 2\na 0x1\nb 0x2\nc 0x1\nd 0x4\n",
    ),
    (
        b"2 go=1\n",
        2,
        "edge 0\nx 0x0\ny 0x0\nedge 1\nx 0x1\ny 0x9\nM[0] 0x1\nN[0] 0x2\nedge 2\nx 0x3\ny 0x2\nM[0] 0x3\n",
    ),
    (
        b"",
        3,
        "edge 0\nword 0xffffffffffffffff\nflag 0x1\nhigh 0x0\nlow 0x0\npast 0x0\nless 0x0\nsame 0x0\n\
        edge 1\nword 0xbbb38751aad20222\nflag 0x0\nhigh 0x1\nless 0x1\nsame 0x1\nW[0] 0x444c78ae552dfddd\n\
        edge 2\nword 0xb1a9556f832abf49\nflag 0x1\nlow 0x8000000000000000\nW[1] 0x4e56aa907cd540b6\n\
        edge 3\nword 0x8ff20eab3c4d5824\nflag 0x0\nlow 0x0\nW[0] 0x700df154c3b2a7db\n",
    ),
    (
        b"",
        2,
        "edge 0\na 0x0\nb 0x0\nc 0x0\nd 0x0\ne 0x0\nf 0x0\ng 0x0\nh 0x0\nedge 1\na 0x1c\nb 0x1c\n\
        edge 2\na 0x37\nb 0x2b\n",
    ),
];

#[test]
fn programs_have_their_traces(rt: HostRuntime) -> Result<(), Fail> {
    let alloc = rt.alloc();
    let mut number: u32 = 0;
    for (schedule, edges, expected) in TRACES {
        let text = trace(alloc, &program(alloc, number)?, schedule, edges)?;
        assert_eq!(rt; text.as_slice(), expected.as_bytes());
        number = number.saturating_add(1);
    }
    Ok(())
}

// Whether a sum with a pin of this name has a module.
fn has_module(alloc: Global, pin: &[u8]) -> Result<bool, Fail> {
    let mut program = double_sum(alloc)?;
    let name = Name::from_bytes(alloc, pin)?;
    program.pins.push(Item { name, width: 8 })?;
    Ok(clocked(alloc, &program)?.is_some())
}

#[test]
fn names_decide_whether_there_is_a_module(rt: HostRuntime) -> Result<(), Fail> {
    let cases = [
        (b"A/B.x".as_slice(), true),
        (b"wire.x", true),
        (b"b", false),
        (b"a b", false),
        (b"wire.7", false),
        (b"edge.clock", false),
        (b"", false),
    ];
    for (pin, expected) in cases {
        assert_eq!(rt; has_module(rt.alloc(), pin)?, expected);
    }
    Ok(())
}
