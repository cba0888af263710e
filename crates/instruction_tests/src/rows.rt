// Instructions with their words and texts, as a manual lists them.
ghost use Rattle.std.specs.Prelude.{◌≡◌};
ghost use Rattle.lisa_tree.specs.Descriptions.{description_tree};
ghost use Rattle.generated_programs.specs.lisa_forms.Codings.{IsCodingOf};
ghost use Rattle.instruction_samples.specs.lisa_syntax.Parts.{IsSyntaxOf};

use instruction_samples::{
    FREE, Instruction, Instructions, MOVES, NESTED, PAIR, PROCESSOR, SIGNED, WHOLE, WIDE, read,
};
use std::alloc::Global;
use std::test::Fail;

// A form, the values of its fields in preorder, its word and its text.
type Row<'a> = (u32, &'a [u64], u64, &'a [u8]);

// Whether what was found is the instruction of a row.
fn is(found: Option<Instruction>, row: Row<'_>) -> bool {
    match found {
        Some(found) => found.form == row.0 && found.values.as_slice() == row.1,
        None => false,
    }
}

// Whether an instruction is encoded, written and read as a row says.
fn is_as_listed(alloc: Global, set: &Instructions, row: Row<'_>) -> Result<bool, Fail>
    requires coding { IsCodingOf (description_tree set.now.machine) set.now.coding }
    requires syntax { IsSyntaxOf (description_tree set.now.machine) set.now.syntax }
{
    let (form, values, word, text) = row;
    let written = set.text(form, values)?;
    let read = read(alloc, set, text)?;
    Ok(set.word(form, values) == Some(word) && written.as_deref() == Some(text) && is(read, row))
}

// The word of the first row that isn't as it is listed. Rows of aliases, which have no word of their own, stand behind the others, of which
// there are so many.
fn first_wrong(
    alloc: Global,
    text: &[u8],
    rows: &[Row<'_>],
    plain: usize,
) -> Result<Option<u64>, Fail> {
    let set = Instructions::of(alloc, text)?;
    for index in 0..rows.len() {
        let row = rows[index];
        let is_decoded = is(set.decoded(alloc, row.2)?, row);
        if is_decoded != (index < plain) || !is_as_listed(alloc, &set, row)? {
            return Ok(Some(row.2));
        }
    }
    Ok(None)
}

const SETS: [(&[u8], &[Row<'static>], usize); 8] = [
    (
        FREE,
        &[
            (0, &[0, 0], 16, b"PUT 0,0"),
            (0, &[3, 1], 29, b"PUT 3,1"),
            (1, &[], 8, b"SKIP"),
            (2, &[2], 25, b"ONE 2"),
        ],
        3,
    ),
    (
        SIGNED,
        &[
            (0, &[4, 3], 19, b"B0x3,-4"),
            (0, &[3, 0], 12, b"B0x0,3"),
            (1, &[1, 2], 58, b"S-1 2"),
            (1, &[0, 3], 51, b"S 0 3"),
        ],
        4,
    ),
    (
        NESTED,
        &[
            (0, &[1, 7], 55, b"LD R1,7"),
            (1, &[0, 1], 41, b"LD R0,[L+1]"),
            (2, &[1, 0, 1], 62, b"LD R1,[H0x1+0]"),
            (3, &[2], 2, b"HALT 2"),
        ],
        4,
    ),
    (
        MOVES,
        &[
            (0, &[1, 0], 20, b"MV R0,R1"),
            (1, &[1], 22, b"MV A,R1"),
            (2, &[1], 25, b"MV R1,A"),
            (3, &[], 26, b"MV A,A"),
        ],
        4,
    ),
    (
        PROCESSOR,
        &[
            (0, &[7, 1], 0x67, b"ADDI R1,7"),
            (0, &[31, 0], 0x5f, b"ADDI R0,31"),
            (1, &[], 0, b"NOP"),
            (2, &[2], 0x82, b"BR 2"),
            (2, &[32], 0xa0, b"BR-32"),
        ],
        5,
    ),
    (PAIR, &[(0, &[3], 3, b"R3"), (1, &[7], 15, b"R0x7")], 2),
    (
        WIDE,
        &[
            (0, &[10, 0], 20, b"W 0xa 0"),
            (0, &[u64::MAX >> 1, 1], u64::MAX, b"W 0x7fffffffffffffff-1"),
        ],
        2,
    ),
    (
        WHOLE,
        &[
            (0, &[u64::MAX >> 1], u64::MAX >> 1, b"W9223372036854775807"),
            (0, &[1 << 63], 1 << 63, b"W-9223372036854775808"),
        ],
        2,
    ),
];

#[test]
fn instructions_are_as_listed(rt: HostRuntime) -> Result<(), Fail> {
    for (text, rows, plain) in SETS {
        assert_eq!(rt; first_wrong(rt.alloc(), text, rows, plain)?, None);
    }
    Ok(())
}
