// The lines of sources, and their faults.
use asm_source::{SourceFault, SourceLine, read_source};
use std::alloc::Global;
use std::test::Fail;

// The lines of a source of at most 4,096 bytes, or its fault.
fn read(alloc: Global, source: &[u8]) -> Result<Vec<SourceLine>, SourceFault> {
    if source.len() > 4096 {
        return Err(SourceFault::NoMemory);
    }
    read_source(alloc, source)
}

const SOURCE: &[u8] =
    b".section prog ; code\nstart: BR @(far-$-2)\r\n.equ n 0x1F\n.word @(n), -5\nfar: NOP";

const LINES: &str = "Ok([\
    SourceLine { line: 1, labels: [], part: Section(Name(prog)) }, \
    SourceLine { line: 2, labels: [Name(start)], part: Instruction([Run(Name(BR)), Operand(Name(), Sum { constant: -2, terms: [\
    Term { minus: false, name: Some(Name(far)) }, Term { minus: true, name: None }] })]) }, \
    SourceLine { line: 3, labels: [], part: Equ(Name(n), 31) }, \
    SourceLine { line: 4, labels: [], part: Cells([Sum(Sum { constant: 0, terms: [\
    Term { minus: false, name: Some(Name(n)) }] }), Number(-5)]) }, \
    SourceLine { line: 5, labels: [Name(far)], part: Instruction([Run(Name(NOP))]) }])";

#[test]
fn lines_or_a_fault_are_told(rt: HostRuntime) -> Result<(), Fail> {
    let alloc = rt.alloc();
    let cases = [
        (SOURCE, LINES),
        (
            b"x: .foo 1\n".as_slice(),
            "Err(UnknownDirective { line: 1 })",
        ),
        (b"BR @(1+)\n", "Err(BadExpression { line: 1 })"),
        (b".space 1048577\n", "Err(BadLine { line: 1 })"),
        (b"\r\n;\r\n.word @(1+), 5x", "Err(BadLine { line: 3 })"),
        (b"NOP\r", "Err(BadLine { line: 1 })"),
    ];
    for (source, expected) in cases {
        let told = format!(in alloc; "{:?}", read(alloc, source))?;
        assert_eq!(rt; told.as_str(), expected);
    }
    Ok(())
}

// The line of a fault of a source's form, or 0.
fn line(fault: &SourceFault) -> u32 {
    match fault {
        SourceFault::BadLine { line }
        | SourceFault::UnknownDirective { line }
        | SourceFault::BadExpression { line } => *line,
        _ => 0,
    }
}

#[test]
fn each_front_of_a_source_is_read_or_has_a_fault_in_its_last_line(rt: HostRuntime) {
    for end in 0..SOURCE.len() {
        let front = &SOURCE[..end];
        if let Err(fault) = read(rt.alloc(), front) {
            let feeds = front.iter().filter(|b| **b == b'\n').count();
            assert_eq!(rt; line(&fault) as usize, feeds.saturating_add(1));
        }
    }
}
