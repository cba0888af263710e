// Sources that are drawn, against such that another program drew.
use generated_programs::{GenFault, generate};
use instruction_samples::{Instructions, PROCESSOR};
use std::alloc::Global;
use std::test::Fail;

// The source of so many instructions of a description, drawn from a number.
fn drawn(alloc: Global, text: &[u8], number: u64, count: u32) -> Result<Vec<u8>, Fail> {
    let set = Instructions::of(alloc, text)?;
    set.coding.aliases(alloc)?;
    match generate(alloc, &set.machine, &set.forms, &set.syntax, number, count) {
        Ok(source) => Ok(source),
        Err(GenFault::NoProgram) => Err(Fail::from("no program")),
        Err(GenFault::NoMemory) => Err(Fail::from("memory")),
    }
}

#[test]
fn sources_are_as_drawn_elsewhere(rt: HostRuntime) -> Result<(), Fail> {
    let cases = [
        (1, 0, b".section prog\n".as_slice()),
        (
            1,
            8,
            b".section prog\nBR-17\nADDI R0,31\nNOP\nNOP\nADDI R1,20\nADDI R1,30\nADDI R1,21\nBR-25\n",
        ),
        (
            0xffff_ffff_ffff_ffff,
            4,
            b".section prog\nNOP\nBR-8\nADDI R0,16\nADDI R0,4\n",
        ),
    ];
    for (number, count, source) in cases {
        assert_eq!(rt;
            drawn(rt.alloc(), PROCESSOR, number, count)?.as_slice(),
            source
        );
    }
    Ok(())
}
