// What the program tells, prints and says where a call of a file, of the input, of the output or of what it says fails.
use lisa_cli::{Status, lisa};
use lisa_io::{MemFile, MemFiles, MemSink, MemSource};
use std::alloc::Global;
use std::test::Fail;

// A register that starts at 5 and grows by 1, as a description and as a module.
const COUNTER: &[u8] =
    b"RESOURCE { REGISTER uint8 n; }\nOPERATION reset { BEHAVIOR { n = 5; } }\nOPERATION main { BEHAVIOR { n = n + 1; } }\n";

const MODULE: &[u8] =
    b"module t (input clk); reg [7:0] n; initial n = 8'd5; always @(posedge clk) n <= n + 8'd1; endmodule\n";

// Two instructions, a source with both, its object and image, and a module that has the memory of a program.
const MACHINE: &[u8] =
    b"RESOURCE { REGISTER uint4 pc; REGISTER uint8 ir; REGISTER uint8 n; PROGRAM_MEMORY uint8 m[16]; }
OPERATION main { DECLARE { INSTANCE step; } BEHAVIOR { ir = m[pc]; pc = pc + 1; } ACTIVATION { step } }
OPERATION step { DECLARE { GROUP i = { add || nop }; } CODING { ir == i } ACTIVATION { i } }
OPERATION add { DECLARE { LABEL k; } CODING { 0b1 k=0bx[7] } SYNTAX { \"ADD\" k=#U } BEHAVIOR { n = n + k; } }
OPERATION nop { CODING { 0b0 0bx[7] } SYNTAX { \"NOP\" } }
";

const SOURCE: &[u8] = b".section m\nADD 5\nNOP\n";

const OBJECT: &[u8] =
    b"object 1 24492fff91fe75666938538b387552847f1e3a282ce3eb382685088f727e50ac\nsection m 8\ncell 85\ncell 0\nend\n";

const IMAGE: &[u8] =
    b"image 1 24492fff91fe75666938538b387552847f1e3a282ce3eb382685088f727e50ac\nmemory m 8 16 2\n85\n0\nend\n";

const STORE: &[u8] = b"module t (input clk); reg [7:0] m [0:15]; endmodule\n";

// The memory of that image for other tools.
const HEX: &[u8] = b":02000000850079\n:00000001FF\n";

const MEMH: &[u8] = b"85\n00\n";

// The waves of the counter.
const DUMP: &[u8] =
    b"$timescale 1 ns $end\n$scope module machine $end\n$var reg 8 ! n $end\n$upscope $end\n$enddefinitions $end\n#0\n$dumpvars\nb101 !\n$end\n#1\nb110 !\n";

// A machine that shows each byte that it is given, as a description and as a module, and its board.
const ECHO: &[u8] =
    b"RESOURCE { REGISTER uint8 d; REGISTER uint1 s; REGISTER uint1 u; PIN uint8 byte; PIN uint1 valid; }
OPERATION main { BEHAVIOR { if (valid) { d = byte; s = s + 1; u = u + 1; } } }
";

const ECHO_MODULE: &[u8] =
    b"module t (input clk, input [7:0] byte, input valid); reg [7:0] d; reg s; reg u;
initial begin d = 8'd0; s = 1'd0; u = 1'd0; end
always @(posedge clk) begin if (valid) begin d <= byte; s <= s + 1'd1; u <= u + 1'd1; end end
endmodule
";

const BOARD: &[u8] = b"console d s byte valid u\n";

const LINES: &[u8] = b"step 5\nshow n\n";

// The words that are asked, the numbers of the calls that fail of files, the input, the output and what is said, and what is to come: the
// word of the status, what is printed and what is said.
type Case<'a> = (&'a str, [&'a [u64]; 4], &'a str, &'a [u8], &'a [u8]);

fn words(alloc: Global, asked: &str) -> Result<Vec<String>, Fail> {
    let mut all = Vec::new(alloc);
    for word in asked.split(' ') {
        if !word.is_empty() {
            all.push(String::from_str(alloc, word)?)?;
        }
    }
    Ok(all)
}

fn file(alloc: Global, name: &str, bytes: &[u8]) -> Result<MemFile, Fail> {
    Ok(MemFile::new(String::from_str(alloc, name)?, bytes.to_vec(alloc)?))
}

// The counter is the file D as a description and V as a module, with its waves W; the two instructions P, the module with their memory M, the
// source S, its object O and its image J, of which H and X are the memory; what shows its input E and L, with its board B.
fn files(alloc: Global, failing: &[u64]) -> Result<MemFiles, Fail> {
    let all = vec![in alloc;
        file(alloc, "D", COUNTER)?,
        file(alloc, "V", MODULE)?,
        file(alloc, "P", MACHINE)?,
        file(alloc, "M", STORE)?,
        file(alloc, "S", SOURCE)?,
        file(alloc, "O", OBJECT)?,
        file(alloc, "J", IMAGE)?,
        file(alloc, "H", HEX)?,
        file(alloc, "X", MEMH)?,
        file(alloc, "W", DUMP)?,
        file(alloc, "E", ECHO)?,
        file(alloc, "L", ECHO_MODULE)?,
        file(alloc, "B", BOARD)?,
    ]?;
    Ok(MemFiles::new(all, failing.to_vec(alloc)?))
}

// A sink that takes at most 8 bytes at once.
fn sink(alloc: Global, failing: &[u64]) -> Result<MemSink, Fail> {
    Ok(MemSink::new(vec![in alloc; 0; 4096]?, 8, failing.to_vec(alloc)?))
}

fn word(status: Status) -> &'static str {
    match status {
        Status::Done => "done",
        Status::Refused(_) => "refused",
        Status::Usage => "usage",
        Status::ReadFault => "read fault",
        Status::WriteFault => "write fault",
        Status::NoMemory => "no memory",
    }
}

// Whether what comes is what is to come.
fn is_so(alloc: Global, case: Case<'_>) -> Result<bool, Fail> {
    let (asked, failing, status, printed, said) = case;
    let mut input = MemSource::new(LINES.to_vec(alloc)?, failing[1].to_vec(alloc)?);
    let mut out = sink(alloc, failing[2])?;
    let mut err = sink(alloc, failing[3])?;
    let found = lisa(
        alloc,
        &words(alloc, asked)?,
        &mut files(alloc, failing[0])?,
        &mut input,
        &mut out,
        &mut err,
    );
    Ok(word(found) == status && out.bytes() == printed && err.bytes() == said)
}

const NONE: [&[u64]; 4] = [&[], &[], &[], &[]];

const FAULT: &[u8] = b"lisa: read fault\n";

#[test]
fn nothing_fails(rt: HostRuntime) -> Result<(), Fail> {
    let cases = [
        (
            "run D - - 3",
            NONE,
            "done",
            b"edge 3\nn 0x8\n".as_slice(),
            b"".as_slice(),
        ),
        ("debug D - -", NONE, "done", b"edge 5\nn 0xa\n", b""),
        (
            "run D D - 3",
            NONE,
            "refused",
            b"",
            b"lisa: image 1 NotAnImage line=1\n",
        ),
        (
            "run D - V 3",
            NONE,
            "refused",
            b"",
            b"lisa: schedule 1 BadLine line=1\n",
        ),
        ("vdebug V - -", NONE, "done", b"edge 5\nn 0xa\n", b""),
        (
            "fmt V",
            NONE,
            "refused",
            b"",
            b"lisa: description 1 BadByte at=48\n",
        ),
        ("asm P S", NONE, "done", OBJECT, b""),
        ("link P O", NONE, "done", IMAGE, b""),
        ("dis P J", NONE, "done", SOURCE, b""),
        ("gen P 7 0", NONE, "done", b".section m\n", b""),
        (
            "gen D 7 0",
            NONE,
            "refused",
            b"",
            b"lisa: program 1 NoProgram\n",
        ),
        (
            "soak P V 7 4 3",
            NONE,
            "refused",
            b"",
            b"lisa: image 3 NoSuchMemory name=m\n",
        ),
        ("tohex P J m", NONE, "done", HEX, b""),
        ("fromhex P H m", NONE, "done", IMAGE, b""),
        ("tomem P J m", NONE, "done", MEMH, b""),
        ("frommem P X m", NONE, "done", IMAGE, b""),
        (
            "tohex P J n",
            NONE,
            "refused",
            b"",
            b"lisa: hex 1 NoSuchMemory name=n\n",
        ),
        ("vcd D - - 1", NONE, "done", DUMP, b""),
        ("vvcd V - - 1", NONE, "done", DUMP, b""),
        (
            "unvcd W",
            NONE,
            "done",
            b"edge 0\nn 0x5\nedge 1\nn 0x6\n",
            b"",
        ),
        ("occupancy D - - 3", NONE, "done", b"", b""),
        ("board E - B 3", NONE, "done", b"ste", b""),
        ("vboard L - B 3", NONE, "done", b"ste", b""),
        (
            "board D - B 3",
            NONE,
            "refused",
            b"",
            b"lisa: board 2 UnknownItem line=1 name=d\n",
        ),
    ];
    for case in cases {
        assert!(rt; is_so(rt.alloc(), case)?, "{}", case.0);
    }
    Ok(())
}

#[test]
fn a_call_fails(rt: HostRuntime) -> Result<(), Fail> {
    let once = [1].as_slice();
    let later = [2].as_slice();
    let none = [].as_slice();
    let cases = [
        (
            "run D - - 3",
            [once, none, none, none],
            "read fault",
            b"".as_slice(),
            FAULT,
        ),
        ("fmt D", [later, none, none, none], "read fault", b"", FAULT),
        ("run G - - 3", NONE, "read fault", b"", FAULT),
        ("run D G - 3", NONE, "read fault", b"", FAULT),
        ("clock V G - 1", NONE, "read fault", b"", FAULT),
        (
            "debug D - -",
            [none, once, none, none],
            "read fault",
            b"",
            FAULT,
        ),
        (
            "vdebug V - -",
            [none, later, none, none],
            "read fault",
            b"edge 5\nn 0xa\n",
            FAULT,
        ),
        (
            "board E - B 3",
            [none, once, none, none],
            "read fault",
            b"",
            FAULT,
        ),
        (
            "run D - - 3",
            [none, none, once, none],
            "write fault",
            b"",
            b"",
        ),
        ("check D", [none, none, once, none], "write fault", b"", b""),
        (
            "clocktrace V - - 2",
            [none, none, later, none],
            "write fault",
            b"edge ",
            b"",
        ),
        ("", [none, none, none, once], "write fault", b"", b""),
        (
            "run G - - 3",
            [none, none, none, once],
            "write fault",
            b"",
            b"",
        ),
        ("fmt V", [none, none, none, once], "write fault", b"", b""),
    ];
    for case in cases {
        assert!(rt; is_so(rt.alloc(), case)?, "{}", case.0);
    }
    Ok(())
}

// What the program answers, prints and says.
#[derive(Drop)]
struct Seen {
    status: &'static str,
    printed: Vec<u8>,
    said: Vec<u8>,
}

// What is seen where these calls fail.
fn watch_run(alloc: Global, asked: &str, failing: [&[u64]; 4]) -> Result<Seen, Fail> {
    let mut input = MemSource::new(LINES.to_vec(alloc)?, failing[1].to_vec(alloc)?);
    let mut out = sink(alloc, failing[2])?;
    let mut err = sink(alloc, failing[3])?;
    let status = lisa(
        alloc,
        &words(alloc, asked)?,
        &mut files(alloc, failing[0])?,
        &mut input,
        &mut out,
        &mut err,
    );
    Ok(Seen {
        status: word(status),
        printed: out.bytes().to_vec(alloc)?,
        said: err.bytes().to_vec(alloc)?,
    })
}

// Whether what is seen is what nothing but a failing read shows.
fn is_unread(whole: &Seen, cut: &Seen) -> bool {
    cut.status == "read fault"
        && cut.said.as_slice() == FAULT
        && whole.printed.starts_with(&cut.printed)
}

// Whether it is what a failing put on the output shows.
fn is_unprinted(whole: &Seen, cut: &Seen) -> bool {
    cut.status == "write fault" && cut.said.is_empty() && whole.printed.starts_with(&cut.printed)
}

// Whether it is what a failing put of what is said shows.
fn is_unsaid(whole: &Seen, cut: &Seen) -> bool {
    cut.status == "write fault" && cut.printed == whole.printed && whole.said.starts_with(&cut.said)
}

// Whether a call shows nothing, since it isn't made.
fn is_same(whole: &Seen, cut: &Seen) -> bool {
    cut.status == whole.status && cut.printed == whole.printed && cut.said == whole.said
}

// Whether this call of each of the four fails as it should, or isn't made.
fn fails_well(alloc: Global, asked: &str, whole: &Seen, call: u64) -> Result<bool, Fail> {
    let once = [call];
    let once = once.as_slice();
    let none = [].as_slice();
    let file = watch_run(alloc, asked, [once, none, none, none])?;
    let input = watch_run(alloc, asked, [none, once, none, none])?;
    let out = watch_run(alloc, asked, [none, none, once, none])?;
    let err = watch_run(alloc, asked, [none, none, none, once])?;
    Ok(
        (is_same(whole, &file) || is_unread(whole, &file) && file.printed.is_empty())
            && (is_same(whole, &input) || is_unread(whole, &input))
            && (is_same(whole, &out) || is_unprinted(whole, &out))
            && (is_same(whole, &err) || is_unsaid(whole, &err)),
    )
}

// The words of each command that is built, with what is given and with what is refused.
const COMMANDS: [&str; 47] = [
    "",
    "fmt D",
    "fmt V",
    "fmt G",
    "check D",
    "check V",
    "run D - - 3",
    "run D V - 3",
    "run D - V 3",
    "run V - - 3",
    "trace D - - 3",
    "debug D - -",
    "debug D - D",
    "clock V - - 2",
    "clock V D - 2",
    "clocktrace V - D 2",
    "vdebug V - -",
    "asm P S",
    "asm P D",
    "link P O O",
    "link P D",
    "dis P J",
    "dis D J",
    "verilog D",
    "verilog V",
    "gen P 7 4",
    "gen D 7 4",
    "soak P M 7 4 3",
    "soak P M 7 17 3",
    "soak P V 7 4 3",
    "soak P D 7 4 3",
    "tohex P J m",
    "tohex P J n",
    "tomem P J m",
    "fromhex P H m",
    "fromhex P X m",
    "frommem P X m",
    "frommem P H m",
    "vcd D - - 2",
    "vvcd V - - 2",
    "unvcd W",
    "unvcd V",
    "occupancy D - - 3",
    "occupancy V - - 3",
    "board E - B 3",
    "board D - B 3",
    "vboard L - B 3",
];

#[test]
fn each_call_fails(rt: HostRuntime) -> Result<(), Fail> {
    for asked in COMMANDS {
        let whole = watch_run(rt.alloc(), asked, NONE)?;
        for call in 1..24 {
            assert!(rt;
                fails_well(rt.alloc(), asked, &whole, call)?,
                "{asked}, call {call}"
            );
        }
    }
    Ok(())
}
