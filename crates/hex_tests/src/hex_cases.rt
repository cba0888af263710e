// Intel HEX files, with the width and the depth of a memory, and what they are read as.
use crate::said::{array, cells_said, hex_said};
use hex_files::{print_hex, read_hex};
use lisa_engine::ImageMemory;
use lisa_words::Name;
use std::test::Fail;

const CASES: &[(&[u8], u32, u32, &str)] = &[
    (b":00000001FF", 2, 2, "cells "),
    (b":00000001FF\n", 5, 2, "cells "),
    (b":00000001FF\n", 12, 4, "cells "),
    (b":00000001FF\n\n", 14, 64, "cells "),
    (b":0000000000\n:00000001FF\n", 8, 64, "cells "),
    (b":010000000CF3\n:00000001FF\n", 4, 64, "cells c "),
    (b":020000000D1FD2\n:00000001FF\n", 5, 64, "cells d 1f "),
    (b":02003F040001BA\n:00000001FF\n\n", 5, 64, "cells "),
    (
        b":04000000010D0403E7\n:00000001FF\n",
        4,
        64,
        "cells 1 d 4 3 ",
    ),
    (b":04003F0301020304B0\n:00000001FF\n", 16, 32, "cells "),
    (
        b":06000000B1012505A50178\n:00000001FF\n",
        13,
        64,
        "cells 1b1 525 1a5 ",
    ),
    (
        b":0E00000015171F151F1B1217131B011E121FB1\n:00000001FF\n",
        5,
        64,
        "cells 15 17 1f 15 1f 1b 12 17 13 1b 1 1e 12 1f ",
    ),
    (
        b":04000E0301020304E1\n:020022020001d9\n:00001900E7\n:00000001FF\n",
        6,
        64,
        "cells ",
    ),
    (
        b":10000000FF03C302CF02FF0273026103000012016B\n:0A001000D3029F03090318035703EE\n:00000001FF\n",
        10,
        64,
        "cells 3ff 2c3 2cf 2ff 273 361 0 112 2d3 39f 309 318 357 ",
    ),
    (b":0001FF", 33, 2, "BadRecord line=1"),
    (b":00094001FF$", 6, 64, "BadRecord line=1"),
    (b"end\n:00000001FF\r\n", 4, 64, "BadRecord line=1"),
    (b":010034z07B50\n:000 00001FF", 6, 64, "BadRecord line=1"),
    (
        b":020000000825D1\n:00000001F,F@\n",
        8,
        4,
        "BadRecord line=2",
    ),
    (
        b":06000000,B10112505A50178\n:0000001FF\n",
        13,
        64,
        "BadRecord line=1",
    ),
    (
        b":10ffff000000000000af003f00004e150d0000bbd9\n:00000001FF\n",
        63,
        8,
        "BadRecord line=1",
    ),
    (
        b":10000000080D000A010E0E080E010401000A000A84\n:02001000020Alabel q\nE2\n:00000001FF\n",
        5,
        64,
        "BadRecord line=2",
    ),
    (
        b":1000019001900190013002D60230023E\n:100010003C013002900190010100010090010100BB\n:040020003002300278\n:00000001FF\n",
        10,
        64,
        "BadRecord line=1",
    ),
    (
        b":10000000EE00FFFF51008;75832006A0004007200C2\n:10001000D6004D007 0088007200A4000800010099\n:100020005100D907750000000C00CE00BA003A005C\n:040030003E00750019\n:00000001FF\n",
        16,
        32,
        "BadRecord line=1",
    ),
    (
        b":04003F0000000017A6\n",
        4,
        64,
        "PastEnd line=1 address=64 bytes=64",
    ),
    (
        b":020000020001FB\n\n:0100030000FC\n\n:0000000000\n:00000001FF\r\n",
        4,
        4,
        "PastEnd line=3 address=19 bytes=4",
    ),
    (
        b":04FFFF0301020304F1\n:020000040001F9\n:01003f0000c0\n\n:00000001FF\n\n",
        5,
        64,
        "PastEnd line=3 address=65599 bytes=64",
    ),
    (
        b":01ffff000001\n:10000000000069000000E924000000F5000400275A\n:0400000501020304ED\n:00000001FF",
        9,
        64,
        "PastEnd line=1 address=65535 bytes=128",
    ),
    (
        b":01FFFF000001\n\n:00007f0081\n:020000040000FA\n:04001E0501020304CF\n:04006105010203048C\n:020022020000DA\n:04FFFF0501020304EF\n:00004D00B3\n",
        9,
        64,
        "PastEnd line=1 address=65535 bytes=128",
    ),
    (
        b":0400000301020304EF\n:00004F00B1\n:04007F05010203046E\n:1000000000E50000001B00008A00003E0000060022\n:04007F030102030470\n:00004C00B4\n:04007f000000140069\n:01007f000080\n:00000001FF",
        9,
        64,
        "PastEnd line=7 address=128 bytes=128",
    ),
    (
        b":04007F05010203046E\n:10007F0000000075000000007F0000000601004D29\n:01ffff000001\n:020013040001e6\n:01FFFF000001\n:10000000002E006B0000150000000000E90C00D27B\n:00FFFF0002\n:02FFFF020000FE\n\n:00000001FF",
        9,
        64,
        "PastEnd line=2 address=128 bytes=128",
    ),
    (
        b":04000000E800003BD9\n:0400000301020304ef\n:040003009c0000005d\n:10000300000000A8F90000000000000000D200007A\n:010000008B74\n:00000300FD\n:04FFFF0301020304F1\n:10000000720000000000000000000000b8000000c6\n:00000001FF\n",
        16,
        2,
        "PastEnd line=3 address=4 bytes=4",
    ),
    (
        b":040000FF007F390045\n:00000001FF\n",
        4,
        64,
        "RecordType line=1 kind=255",
    ),
    (
        b":040000FFEA00000013\n:00000001FF\n",
        4,
        64,
        "RecordType line=1 kind=255",
    ),
    (
        b":000000ff01\n:0100000000FF\n:020052020001A9\n:00000001FF\r\n",
        31,
        32,
        "RecordType line=1 kind=255",
    ),
    (
        b":00003f00c1\n:020000060001f7\n:04000000670000286d\n:00000001FF",
        4,
        64,
        "RecordType line=2 kind=6",
    ),
    (
        b":020000FF0001FE\n:02007f0200017c\n:10FFFF00B4001500130033000000C4A4000000007B\n:00000001FF",
        12,
        64,
        "RecordType line=1 kind=255",
    ),
    (
        b":0000000000\n:0100000000FF\n\n:020000FF0000FF\n:04FFFF0301020304F1\n:020001020001FA\n:04FFFF0000007C631F\n\n:04000100006B000090\n:04000000000D00ED02\n:00000001FF\r\n",
        33,
        2,
        "RecordType line=4 kind=255",
    ),
    (
        b":01001F0000E0\n:04FFFF0301020304F1\n:02ffff020000fe\n:00001F00E1\n\n:040000FF0000002BD2\n:020000020000FC\n:00000800F8\n:10FFFF00FD33000000000A0000C5002F1F470085D9\n:00000001FF\n\n",
        1,
        32,
        "RecordType line=6 kind=255",
    ),
    (
        b":04000000682800006C\n:02007F0400007B\n:04007F05010203046E\n:0400000000000000fc\n:10000006A2F200000000004700000000DD00001B17\n:04007F030102030470\n:04FFFF0301020304F1\n:0400000000000020DC\n:00000001FF\n\n",
        11,
        64,
        "RecordType line=5 kind=6",
    ),
    (
        b":00000041FF\n",
        5,
        64,
        "BadSum line=1 kept=255 expected=191",
    ),
    (
        b":000000019F\n\n",
        3,
        64,
        "BadSum line=1 kept=159 expected=255",
    ),
    (
        b":020000000303F8\n:0000000aFF\n",
        2,
        2,
        "BadSum line=2 kept=255 expected=246",
    ),
    (
        b":07000000070601a1070407D8\n:00000001FF\n",
        3,
        8,
        "BadSum line=1 kept=216 expected=56",
    ),
    (
        b":00000108FF\n:02ffff040001fb\n:0200010$0000FB\n\n:0000001FF\n\n",
        5,
        2,
        "BadSum line=1 kept=255 expected=247",
    ),
    (
        b":10000000040B0F0e000D010F050B02000F010E0079\n:070010000F0C0101020109C0\n:000+0001FF\n",
        4,
        32,
        "BadSum line=1 kept=121 expected=119",
    ),
    (
        b":10000000040500000d0000000403000000000000E0\n:100001000C90F000000000000040500FF\n:00000001FF\n",
        63,
        8,
        "BadSum line=1 kept=224 expected=211",
    ),
    (
        b":04000000003c453e30\n\n:00001F00E1\n:0100040000FB\n:0400090501020304E4\n:02000A020001F1\n:04FFFF0301020304F1\n:00ffff0002\n:04FFFF0301020304F1\n:00000001FF\n\n",
        1,
        32,
        "BadSum line=1 kept=48 expected=61",
    ),
    (b"", 8, 64, "NoEnd"),
    (b"", 31, 2, "NoEnd"),
    (b":00003F00C1\n\n", 5, 64, "NoEnd"),
    (
        b":01007F000080\n:00007f0081\n:0400220501020304cb\n",
        10,
        64,
        "NoEnd",
    ),
    (
        b":020000020000FC\n:04003F0501020304AE\n:02FFFF040000FC\n",
        7,
        64,
        "NoEnd",
    ),
    (
        b":020000040000FA\n:02FFFF020001FD\n:04003F0301020304B0\n",
        8,
        64,
        "NoEnd",
    ),
    (
        b":0100000046B9\n:00000001FF",
        4,
        64,
        "CellRange index=0 value=70 width=4",
    ),
    (
        b":01000000CB34\n:00000001FF",
        7,
        64,
        "CellRange index=0 value=203 width=7",
    ),
    (
        b":04000000C700000035\n:00000001FF\n",
        4,
        64,
        "CellRange index=0 value=199 width=4",
    ),
    (
        b":04003f0301020304b0\n:00FFFF0002\n:040019009b00000048\n:00000001FF\r\n",
        4,
        64,
        "CellRange index=25 value=155 width=4",
    ),
    (
        b":04000000000000BC40\n:0400000301020304EF\n:0400200053004F003A\n:00000001FF",
        4,
        64,
        "CellRange index=3 value=188 width=4",
    ),
    (
        b":00FFFF0002\n:100000000000000000F5004400003A00D901930010\n:04FFFF0501020304EF\n:00000001FF",
        3,
        64,
        "CellRange index=5 value=245 width=3",
    ),
    (
        b":0400120301020304DD\n:01000000E718\n\n:0400000301020304ef\n:00ffff0002\n:0400230000000000d9\n:04FFFF0501020304EF\n:01003F00635D\n:02FFFF040000FC\n\n:00000001FF\r\n",
        6,
        64,
        "CellRange index=0 value=231 width=6",
    ),
    (
        b":0400170301020304d8\n:0400000501020304ED\n:02007F0400017A\n\n:020000040000FA\n:04003F0301020304B0\n:0100000000ff\n:04FFFF0501020304EF\n:0400000000EB007899\n:00000001FF",
        9,
        64,
        "CellRange index=0 value=60160 width=9",
    ),
    (b":0300000067C005D1\n:00000001FF\n", 8, 16, "cells 67 c0 5 "),
    (
        b":0300000067C005D0\n:00000001FF\n",
        8,
        16,
        "BadSum line=1 kept=208 expected=209",
    ),
    (b":00000001FF\n\n:00000001FF\n", 8, 16, "AfterEnd line=3"),
    (b":00000001FF\nx\n", 8, 16, "BadRecord line=2"),
    (b":00000001FF\r", 8, 16, "BadRecord line=1"),
    (
        b":0300000067C005D1\r\n:00000001FF\r",
        8,
        16,
        "BadRecord line=2",
    ),
    (b":00000001FF\n\r", 8, 16, "BadRecord line=2"),
    (b":00000001FF\n\r\n", 8, 16, "cells "),
    (
        b":00000001FF\n:0100000001FF\n",
        8,
        16,
        "BadSum line=2 kept=255 expected=254",
    ),
    (
        b":00000001FF\n:00000006FA\n",
        8,
        16,
        "RecordType line=2 kind=6",
    ),
    (
        b":00000001FF\n:00000006FF\n",
        8,
        16,
        "BadSum line=2 kept=255 expected=250",
    ),
    (b":00000001FF\n:0100000001FE\n", 8, 16, "AfterEnd line=2"),
    (b":00000001FF\n:01FFFF000001\n", 8, 16, "AfterEnd line=2"),
    (b"", 8, 16, "NoEnd"),
];

#[test]
fn hex_files_are_read(rt: HostRuntime) -> Result<(), Fail> {
    let alloc = rt.alloc();
    for (text, width, depth, expected) in CASES {
        assert!(rt; text.len() < 1000 && *width >= 1 && *width <= 64);
        let said = match read_hex(alloc, text, &array(alloc, *width, *depth)?) {
            Ok(memory) => cells_said(alloc, &memory.cells)?,
            Err(fault) => hex_said(alloc, &fault)?,
        };
        assert_eq!(rt; said.as_str(), *expected);
    }
    Ok(())
}

#[test]
fn a_hex_file_is_printed(rt: HostRuntime) -> Result<(), Fail> {
    let alloc = rt.alloc();
    let memory = ImageMemory {
        name: Name::from_bytes(alloc, b"prog")?,
        width: 8,
        depth: 16,
        cells: vec![in alloc; 0x67, 0xc0, 5]?,
    };
    let text = print_hex(alloc, &memory)?;
    assert_eq!(rt;
        text.as_slice(),
        b":0300000067C005D1\n:00000001FF\n".as_slice()
    );
    Ok(())
}

#[test]
fn upper_address_bits_are_printed(rt: HostRuntime) -> Result<(), Fail> {
    let alloc = rt.alloc();
    let mut cells = vec![in alloc; 0; 16384]?;
    cells.push(1)?;
    let memory = ImageMemory {
        name: Name::from_bytes(alloc, b"prog")?,
        width: 32,
        depth: 32768,
        cells,
    };
    let text = print_hex(alloc, &memory)?;
    let lines = text.iter().filter(|byte| **byte == b'\n').count();
    assert_eq!(rt; lines, 4099);
    assert!(rt; text.ends_with(b":020000040001F9\n:0400000001000000FB\n:00000001FF\n"));
    Ok(())
}
