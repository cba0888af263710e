// The engine in memory.
use lisa_engine::{Engine, MemEngine, read_schedule, write_state, write_trace};
use lisa_io::MemSink;
use std::alloc::Global;
use std::test::Fail;

fn sink(alloc: Global) -> Result<MemSink, Fail> {
    Ok(MemSink::new(vec![in alloc; 0; 512]?, 512, Vec::new(alloc)))
}

const TRACE: &[u8] = b"edge 0\ncount 0x0\nlast 0x0\nedge 1\ncount 0x1\nlast 0x5\nM[0] 0x5\n\
edge 2\ncount 0x2\nM[1] 0x5\nedge 3\ncount 0x3\nM[2] 0x5\nedge 4\ncount 0x4\nM[3] 0x5\n\
edge 5\ncount 0x5\nlast 0x0\nM[0] 0x0\n";

#[test]
fn a_trace_and_a_state_are_written(rt: HostRuntime) -> Result<(), Fail> {
    let alloc = rt.alloc();
    let mut engine = MemEngine::make(alloc)?;
    let schedule = read_schedule(alloc, b"1 in=5\n5 in=0\n", engine.pins())?;
    let mut trace = sink(alloc)?;
    write_trace(alloc, &mut engine, &schedule, 5, &mut trace)?;
    assert_eq!(rt; trace.bytes(), TRACE);
    let mut state = sink(alloc)?;
    assert!(rt; write_state(&engine, 5, &mut state).is_ok());
    assert_eq!(rt;
        state.bytes(),
        b"edge 5\ncount 0x5\nlast 0x0\nM[1] 0x5\nM[2] 0x5\nM[3] 0x5\n".as_slice()
    );
    Ok(())
}
