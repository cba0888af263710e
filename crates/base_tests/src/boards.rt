// Boards: read, and beside the engine in memory.
use lisa_board::{Board, BoardFault, read_board, run_board};
use lisa_engine::{Engine, Item, MemEngine};
use lisa_words::{Name, NoMemory};
use std::alloc::{AllocError, Global};
use std::test::Fail;

const CASES: &[(&[u8], &str)] = &[
    (b"", ""),
    (b"\n\r\n\r", ""),
    (b"timer load tick", "timer 0 0 "),
    (
        b"timer load tick\r\n\nconsole hits hits byte valid taken\r",
        "timer 0 0 console 1 1 1 2 2 ",
    ),
    (
        b"console hits load code valid taken\ntimer taken p8\ntimer load p0\n",
        "timer 2 11 timer 0 3 console 1 0 12 2 2 ",
    ),
    (b"timer load tick \n", "BadLine line=1"),
    (b"timer  load tick\n", "BadLine line=1"),
    (b"timer load\n", "BadLine line=1"),
    (b"\nTimer load tick\n", "BadLine line=2"),
    (b"console hits hits byte valid\n", "BadLine line=1"),
    (b"timer tick load\n", "UnknownItem line=1 name=tick"),
    (b"timer load load\n", "UnknownPin line=1 name=load"),
    (
        b"console hits hits byte valid tick\n",
        "UnknownItem line=1 name=tick",
    ),
    (
        b"timer load tick\ntimer hits tick\n",
        "PinTaken line=2 name=tick",
    ),
    (
        b"console hits hits tick tick taken\n",
        "PinTaken line=1 name=tick",
    ),
    (
        b"console hits hits tick valid taken\n",
        "PinWidth line=1 name=tick width=1",
    ),
    (
        b"timer load p0\ntimer load p1\ntimer load p2\ntimer load p3\ntimer load p4\ntimer load p5\n\
timer load p6\ntimer load p7\ntimer load p8\n",
        "TooMany line=9 what=timer limit=8",
    ),
    (
        b"console hits hits byte valid taken\nconsole hits hits code tick taken\n",
        "TooMany line=2 what=console limit=1",
    ),
    (b"timer none tick\ntimer\n", "UnknownItem line=1 name=none"),
];

fn item(alloc: Global, name: &[u8], width: u32) -> Result<Item, NoMemory> {
    let name = Name::from_bytes(alloc, name)?;
    Ok(Item { name, width })
}

fn board_said(alloc: Global, board: &Board) -> Result<String, AllocError> {
    let mut said = format!(in alloc; "")?;
    for timer in &board.timers {
        let one = format!(in alloc; "timer {} {} ", timer.load, timer.pin)?;
        said.push_str(one.as_str())?;
    }
    if let Some(it) = board.console {
        let one = format!(in alloc;
            "console {} {} {} {} {} ",
            it.shown, it.strobe, it.byte, it.valid, it.taken
        )?;
        said.push_str(one.as_str())?;
    }
    Ok(said)
}

fn fault_said(alloc: Global, fault: &BoardFault) -> Result<String, AllocError> {
    match fault {
        BoardFault::BadLine { line } => format!(in alloc; "BadLine line={line}"),
        BoardFault::UnknownItem { line, name } => {
            format!(in alloc; "UnknownItem line={line} name={name}")
        }
        BoardFault::UnknownPin { line, name } => {
            format!(in alloc; "UnknownPin line={line} name={name}")
        }
        BoardFault::PinTaken { line, name } => {
            format!(in alloc; "PinTaken line={line} name={name}")
        }
        BoardFault::PinWidth { line, name, width } => {
            format!(in alloc; "PinWidth line={line} name={name} width={width}")
        }
        BoardFault::TooMany { line, what, limit } => {
            format!(in alloc; "TooMany line={line} what={what} limit={limit}")
        }
        BoardFault::NoMemory => format!(in alloc; "NoMemory"),
    }
}

fn answer(alloc: Global, text: &[u8], items: &[Item], pins: &[Item]) -> Result<String, AllocError> {
    if text.len() > 1000 || items.len() > 1000 || pins.len() > 1000 {
        return format!(in alloc; "a longer case");
    }
    match read_board(alloc, text, items, pins) {
        Ok(board) => board_said(alloc, &board),
        Err(fault) => fault_said(alloc, &fault),
    }
}

#[test]
fn boards_are_read(rt: HostRuntime) -> Result<(), Fail> {
    let alloc = rt.alloc();
    let items = [
        item(alloc, b"load", 8)?,
        item(alloc, b"hits", 8)?,
        item(alloc, b"taken", 1)?,
    ];
    let pins = [
        item(alloc, b"tick", 1)?,
        item(alloc, b"byte", 8)?,
        item(alloc, b"valid", 1)?,
        item(alloc, b"p0", 1)?,
        item(alloc, b"p1", 1)?,
        item(alloc, b"p2", 1)?,
        item(alloc, b"p3", 1)?,
        item(alloc, b"p4", 1)?,
        item(alloc, b"p5", 1)?,
        item(alloc, b"p6", 1)?,
        item(alloc, b"p7", 1)?,
        item(alloc, b"p8", 1)?,
        item(alloc, b"code", 8)?,
    ];
    for (text, expected) in CASES {
        let told = answer(alloc, text, &items, &pins)?;
        assert_eq!(rt; told.as_str(), *expected);
    }
    Ok(())
}

// The count is loaded with 0, 1, 3 and 7 in the edges 1, 2, 4 and 8, and is 0 again behind edges 3 and 7.
#[test]
fn a_timer_beside_the_engine_in_memory(rt: HostRuntime) -> Result<(), Fail> {
    let alloc = rt.alloc();
    for (edges, last) in [(2, 0), (3, 1), (4, 0), (6, 0), (7, 1), (8, 0)] {
        let mut engine = MemEngine::make(alloc)?;
        let Ok(board) = read_board(alloc, b"timer count in\n", engine.items(), engine.pins()) else {
            return Err(Fail::new("no board"));
        };
        let printed = run_board(alloc, &board, &mut engine, b"x", edges)?;
        assert_eq!(rt; printed.as_slice(), b"".as_slice());
        assert_eq!(rt; engine.value(0), edges as u64);
        assert_eq!(rt; engine.value(1), last);
    }
    Ok(())
}
