// Value change dumps: written, read, and told as a trace.
use lisa_engine::{Engine, MemEngine, read_schedule};
use lisa_io::MemSink;
use lisa_words::Name;
use std::alloc::Global;
use std::test::Fail;
use vcd_trace::{VcdFault, read_vcd, write_vcd, write_vcd_trace};

fn sink(alloc: Global) -> Result<MemSink, Fail> {
    Ok(MemSink::new(vec![in alloc; 0; 512]?, 512, Vec::new(alloc)))
}

const RUN: &[u8] = b"$timescale 1 ns $end\n$scope module machine $end\n$var reg 8 ! count $end\n\
$var reg 4 \" last $end\n$upscope $end\n$enddefinitions $end\n#0\n$dumpvars\nb0 !\nb0 \"\n$end\n\
#1\nb1 !\nb101 \"\n#2\nb10 !\n#3\nb11 !\n#4\nb100 !\n#5\nb101 !\nb0 \"\n";

const TRACE: &[u8] = b"edge 0\ncount 0x0\nlast 0x0\nedge 1\ncount 0x1\nlast 0x5\n\
edge 2\ncount 0x2\nedge 3\ncount 0x3\nedge 4\ncount 0x4\nedge 5\ncount 0x5\nlast 0x0\n";

#[test]
fn a_run_is_dumped_and_read_again(rt: HostRuntime) -> Result<(), Fail> {
    let alloc = rt.alloc();
    let mut engine = MemEngine::make(alloc)?;
    let schedule = read_schedule(alloc, b"1 in=5\n5 in=0\n", engine.pins())?;
    let mut dump = sink(alloc)?;
    write_vcd(alloc, &mut engine, &schedule, 5, &mut dump)?;
    assert_eq!(rt; dump.bytes(), RUN);
    let mut trace = sink(alloc)?;
    write_vcd_trace(&read_vcd(alloc, dump.bytes())?, &mut trace)?;
    assert_eq!(rt; trace.bytes(), TRACE);
    Ok(())
}

#[test]
fn a_dump_of_another_tool_is_read(rt: HostRuntime) -> Result<(), Fail> {
    let alloc = rt.alloc();
    let text = b"$date today $end $version x $end $scope module a $end $scope module b $end\n\
$var wire 1 ! clk $end $var reg 4 $$ v [3:0] $end $upscope $end $comment # $end $upscope $end\n\
$var wire 4 $$ same $end $enddefinitions $end 0! B0101 $$\n#10 $dumpvars $comment y $end 1! $end\n\
#20 b0110 $$ b0001 $$ $dumpall $end #25";
    let mut trace = sink(alloc)?;
    write_vcd_trace(&read_vcd(alloc, text)?, &mut trace)?;
    assert_eq!(rt;
        trace.bytes(),
        b"edge 10\nclk 0x1\nv 0x5\nsame 0x5\nedge 20\nv 0x1\nsame 0x1\nedge 25\n".as_slice()
    );
    Ok(())
}

#[test]
fn each_fault_is_told(rt: HostRuntime) -> Result<(), Fail> {
    let alloc = rt.alloc();
    let name = |text: &[u8]| Name::from_bytes(alloc, text);
    let cases = [
        (
            b"$var reg 1 ! a $end $enddefinitions $end #0 x!".as_slice(),
            None,
        ),
        (
            b"$var reg 1 ! a $end $enddefinitions $end #0 1\"",
            Some(VcdFault::UnknownCode { at: 44 }),
        ),
        (
            b"$var reg 65 ! a $end $enddefinitions $end #0 1!",
            Some(VcdFault::BadWidth {
                name: name(b"a")?,
                width: 65,
            }),
        ),
        (
            b"$var reg 2 ! a $end $var reg 3 ! b $end $enddefinitions $end #0 1!",
            Some(VcdFault::BadWidth {
                name: name(b"b")?,
                width: 3,
            }),
        ),
        (
            b"$var reg 1 ! a $end $enddefinitions $end #3 1! #3",
            Some(VcdFault::NotRising { at: 47 }),
        ),
        (
            b"$var reg 2 ! a $end $enddefinitions $end #3 b011 ! b100 !",
            Some(VcdFault::ValueWidth { at: 51 }),
        ),
        (
            b"$var reg 2 ! a $end $var reg 1 % b $end $enddefinitions $end #3 b011 !",
            Some(VcdFault::NoFirst { name: name(b"b")? }),
        ),
    ];
    for (text, expected) in cases {
        if text.len() > 100 {
            return Err(Fail::new("a longer case"));
        }
        match (read_vcd(alloc, text), expected) {
            (Err(VcdFault::BadToken { .. }), None) => {}
            (Err(fault), Some(told)) => assert_eq!(rt; fault, told),
            _ => return Err(Fail::new("another answer")),
        }
    }
    Ok(())
}
