// Files for `$readmemh`, with the width and the depth of a memory, and what they are read as.
use crate::said::{array, cells_said, memh_said};
use hex_files::{print_memh, read_memh};
use lisa_engine::ImageMemory;
use lisa_words::Name;
use std::test::Fail;

const CASES: &[(&[u8], u32, u32, &str)] = &[
    (b"", 1, 16, "cells "),
    (b"", 12, 64, "cells "),
    (b"5", 5, 64, "cells 5 "),
    (b"3_", 4, 64, "cells 3 "),
    (b"01\n", 5, 8, "cells 1 "),
    (b"0\n6\n", 3, 64, "cells 0 6 "),
    (b"/*/ 1 */", 2, 2, "cells "),
    (b"19\n17\n16\n08\n", 6, 64, "cells 19 17 16 8 "),
    (
        b"@F\n90_\n5\nf4\n@2f",
        8,
        64,
        "cells 0 0 0 0 0 0 0 0 0 0 0 0 0 0 0 90 5 f4 ",
    ),
    (
        b"@24 cf_ 106 12_ 121",
        9,
        64,
        "cells 0 0 0 0 0 0 0 0 0 0 0 0 0 0 0 0 0 0 0 0 0 0 0 0 0 0 0 0 0 0 0 0 0 0 0 0 cf 106 12 121 ",
    ),
    (
        b"40\n40\n38\n3a\n3c\n1f\n4c\n18\n19\n",
        7,
        64,
        "cells 40 40 38 3a 3c 1f 4c 18 19 ",
    ),
    (
        b"2\ne\ne\nc\nc\n1\nd\ne\nc\n4\ne\n5\n9\n3\n1\n7\n6\n0\nc\ne\n",
        4,
        64,
        "cells 2 e e c c 1 d e c 4 e 5 9 3 1 7 6 0 c e ",
    ),
    (
        b"01\n00\n78\n50\n78\n61\n50\n34\n78\n12\n50\n7f\n50\n50\n11\n02\n12\n54\n50\n50\n05\n04\n79\n",
        7,
        64,
        "cells 1 0 78 50 78 61 50 34 78 12 50 7f 50 50 11 2 12 54 50 50 5 4 79 ",
    ),
    (
        b"0_\nB\n6_\n6_\n00d\n6\na_\n9_\n0\n/* 5 */\nc\n/*/ 1 */\n002\n7_\n9_\n/**/\n5\nE\n@22\n@34\n@39\n00e\n6_\n00d\n@20\n7\n9\nc_\n8_\nd_",
        4,
        64,
        "cells 0 b 6 6 d 6 a 9 0 c 2 7 9 5 e 0 0 0 0 0 0 0 0 0 0 0 0 0 0 0 0 0 7 9 c 8 d 0 0 0 0 0 0 0 0 0 0 0 0 0 0 0 0 0 0 0 0 e 6 d ",
    ),
    (b"0\t3\t1\t1\t003", 2, 2, "PastEnd index=2 depth=2"),
    (b"e0\n@40\nD4\nD2\n0011", 8, 64, "PastEnd index=64 depth=64"),
    (
        b"E 0 9 0 E 5 0 2_ @17 c_ 7_ B 7_ 8_ 006 00f 6 6 @21 00e b_ @40 5_ 0 @39 4_ @5 e C f",
        4,
        64,
        "PastEnd index=64 depth=64",
    ),
    (
        b"2\t@1\t/*/ 1 */\t@1\t1\t@1\t@0\t000\t0_\t0_\t3\t001\t/* 5 */\t3\t@1\t0\t0_\t001\t2\t2\t1\t002\t001\t1\t003\t@1\t1_\t2\t1_\t001",
        2,
        2,
        "PastEnd index=2 depth=2",
    ),
    (
        b"1e\t3d_\t3D\t0013\t2f_\t7\t27\t001f\t1b\t3\t5_\t12_\t@2b\td\t@3B\tc\t0031\t0018\t5\ta\t16_\t40\t15_\t36\t27\t/**/\t33\t37_\t3A\t24",
        6,
        64,
        "PastEnd index=64 depth=64",
    ),
    (
        b"f2_\tea_\t84\t@0\t10\t00cf\t00d\t0044\t@1\te4_\tF4\tc8_\t@0\tb0_\t4\tdb\t0010\t00bf\t4f_\t100\t@0\t00b2\t51_\t2f\t63\tb0\t@1\t8a_\t2c\t@0",
        8,
        2,
        "PastEnd index=2 depth=2",
    ),
    (
        b"e3_\nd3\n00b2\n100_\n/*/ 1 */\n76\n40_\n@0\n37\n@1\n12\nE2\nce\n009c\n21\n46\n0_\nE3\n@0\n007\nD4\ne\n0063\n2a\n0014\n//\r\n\n@1\nfe_\n99_\n@0",
        8,
        2,
        "PastEnd index=2 depth=2",
    ),
    (
        b"c8_\r\n74\r\n3\r\n7f_\r\nC8\r\n73_\r\n0035\r\n007d\r\n1C\r\n49\r\n4b\r\n@1\r\n008\r\nfb\r\n0078\r\nE4\r\n9f_\r\nA8\r\n@0\r\n96\r\n3d_\r\n5f\r\n0071\r\n0038\r\n62\r\n61\r\ne5\r\n72\r\n//\r\n\r\n18",
        8,
        4,
        "PastEnd index=4 depth=4",
    ),
    (b"#", 6, 64, "BadWord at=0"),
    (b"$7;\n", 4, 64, "BadWord at=0"),
    (b"5@\n\r\n", 4, 64, "BadWord at=0"),
    (b"space 1\n", 4, 64, "BadWord at=0"),
    (b"b1 !\nf\n27\n", 8, 2, "BadWord at=3"),
    (b"timer load tick\n", 7, 64, "BadWord at=0"),
    (b"\r\n$comment x $end9a_", 8, 2, "BadWord at=2"),
    (
        b"2\n2\n3\n2\n2\n.\n1e0\t\n1\n2\n1\n0\n",
        3,
        64,
        "BadWord at=10",
    ),
    (
        b"200\n310\n3a0\n260\n049\n000\n00=.\n3a2\n\n",
        12,
        16,
        "BadWord at=24",
    ),
    (
        b"5\nd\n0\nmtimer load tick\nem\tory m 8 16 1\n3\nf\n",
        4,
        64,
        "BadWord at=6",
    ),
    (
        b"f\n#_\n1\n//\r\n\nA\n@26\n3_\n2\nf_\n6\n00d\n9\n6\nE\n@F\n0a\n7\n00b\n@15\nd\n0_\n@10\n2\n7\nb\nc_\n008\nD\nA\n@A",
        4,
        64,
        "BadWord at=2",
    ),
    (
        b"2F\t29\t1C\tspace 1\n15\t/* 5 */\t23\t/* 5 */\t39_\t7\t@40\t0035\tf\tD\t002\t0\t2E\t20_\t@0\tf\t11\t15_\t008\t@33\t16\t\t4_\t6_\t4_",
        6,
        64,
        "BadWord at=9",
    ),
    (b"f", 3, 64, "CellRange index=0 value=15 width=3"),
    (b"4\nc\n2\n", 3, 64, "CellRange index=1 value=12 width=3"),
    (
        b"6\t8\t5_\t7\t@6",
        3,
        8,
        "CellRange index=1 value=8 width=3",
    ),
    (
        b"0187\n13fe072c\n",
        13,
        64,
        "CellRange index=1 value=335415084 width=13",
    ),
    (
        b"32d 33 00800 00131 252",
        11,
        64,
        "CellRange index=2 value=2048 width=11",
    ),
    (
        b"01\n00\n03\n00\n03\n40\n01\n23600\nff\n00$end\n06\n",
        8,
        32,
        "CellRange index=7 value=144896 width=8",
    ),
    (
        b"007 004 @1C C //\r\n 00f 9_ @40 @1A 2 @B 1 2_ F //;\n 10 005 003 0 @E 7_ b 9 @2 f_ -1 4 1_ f_ ,8",
        4,
        64,
        "CellRange index=14 value=16 width=4",
    ),
    (
        b"3\t001d\tA\t/**/\t15_\t0015\t4\t//\r\n\t00a\t1f_\t0016\t3\t0 20\t@1\t10\t19_\t18\t10\t15\t0space 1\n01(2\t1f\t7\t0\t9_\t1D\tD\t13\t003\t4_\t3",
        5,
        64,
        "CellRange index=11 value=32 width=5",
    ),
    (b"@2 5 // x\nff\n", 8, 16, "cells 0 0 5 ff "),
    (b"100", 8, 16, "CellRange index=0 value=256 width=8"),
    (b"5//x\n6/* */7", 8, 16, "cells 5 6 7 "),
    (b"5 /* 6", 8, 16, "BadWord at=2"),
    (b"@99", 8, 16, "cells "),
    (b"_1", 8, 16, "BadWord at=0"),
    (b"@10 5", 8, 16, "PastEnd index=16 depth=16"),
    (b"5/6", 8, 16, "BadWord at=0"),
    (b"5 6/7", 8, 16, "BadWord at=2"),
    (b"/5", 8, 16, "BadWord at=0"),
    (b"1z", 8, 16, "BadWord at=0"),
    (b"5 // a\x01b\n6", 8, 16, "BadWord at=6"),
    (b"5 // a\x7f", 8, 16, "BadWord at=6"),
    (b"5 // a\r6\n7", 8, 16, "cells 5 7 "),
    (b"5 /* a\x80 */ 6", 8, 16, "BadWord at=6"),
    (b"5 /* \x01 6", 8, 16, "BadWord at=2"),
    (b"@", 8, 16, "BadWord at=0"),
    (b"@_1", 8, 16, "BadWord at=0"),
    (b"@10000000000000000 5", 8, 16, "BadWord at=0"),
    (b"5 @1_0000_0000_0000_0000", 8, 16, "BadWord at=2"),
    (b"@ffffffffffffffff", 8, 16, "cells "),
    (
        b"@ffff_ffff_ffff_ffff 5",
        8,
        16,
        "PastEnd index=18446744073709551615 depth=16",
    ),
    (
        b"ffffffffffffffff 1_0000_0000_0000_0000",
        64,
        2,
        "BadWord at=17",
    ),
];

#[test]
fn memh_files_are_read(rt: HostRuntime) -> Result<(), Fail> {
    let alloc = rt.alloc();
    for (text, width, depth, expected) in CASES {
        assert!(rt; text.len() < 1000 && *width >= 1 && *width <= 64);
        let said = match read_memh(alloc, text, &array(alloc, *width, *depth)?) {
            Ok(memory) => cells_said(alloc, &memory.cells)?,
            Err(fault) => memh_said(alloc, &fault)?,
        };
        assert_eq!(rt; said.as_str(), *expected);
    }
    Ok(())
}

#[test]
fn a_memh_file_is_printed(rt: HostRuntime) -> Result<(), Fail> {
    let alloc = rt.alloc();
    let memory = ImageMemory {
        name: Name::from_bytes(alloc, b"prog")?,
        width: 8,
        depth: 16,
        cells: vec![in alloc; 0x67, 0xc0, 5]?,
    };
    assert_eq!(rt;
        print_memh(alloc, &memory)?.as_slice(),
        b"67\nc0\n05\n".as_slice()
    );
    Ok(())
}
