// Board files.
ghost use Rattle.std.specs.Prelude.{◌≡◌, ◌<◌, ◌^◌, ◌==◌, IfOk, length, map};
ghost use Rattle.std.specs.List.{slice_split};
ghost use Rattle.std.specs.Str.Lines.{strip_carriage_return};
ghost use Rattle.lisa_board.specs.Boards.{IsBoardFor};
ghost use Rattle.lisa_board.specs.BoardLines.{board_of, IsUnlessNoMemory};

use crate::board::Board;
use crate::fault::BoardFault;
use crate::line::read_device;
use lisa_engine::Item;
use std::alloc::{AllocError, Global};

// The lines' bytes, with their carriage returns.
fn parts_of<'a>(alloc: Global, bytes: &'a [u8]) -> Result<Vec<&'a [u8]>, AllocError>
    ensures { IfOk result (λ parts. map (λ p. p.now) parts.items ≡ slice_split (λ b. b == 10) bytes.now) }
{
    bytes.split(|byte| *byte == b'\n').collect(alloc)
}

// The line without a carriage return at its end.
fn line_text(part: &[u8]) -> &[u8]
    ensures { result.now ≡ strip_carriage_return part.now }
{
    match part {
        [text @ .., b'\r'] => text,
        _ => part,
    }
}

/// Reads the board that the bytes write for these items and pins.
///
/// The first line with a fault counts, and in a line the fault that comes first in `BoardFault`. An empty line is skipped.
pub fn read_board(
    alloc: Global,
    bytes: &[u8],
    items: &[Item],
    pins: &[Item],
) -> Result<Board, BoardFault>
    requires bytes { length bytes.now < 2 ^ 32 }
    requires items { length items.now < 2 ^ 32 }
    requires pins { length pins.now < 2 ^ 32 }
    ensures read { IsUnlessNoMemory (board_of items.now pins.now bytes.now) result }
    ensures fits { IfOk result (IsBoardFor items.now pins.now) }
{
    let parts = parts_of(alloc, bytes)?;
    let mut board = Board::bare(alloc, pins.len() as u32);
    for place in 0..parts.len() {
        let text = line_text(parts[place]);
        if !text.is_empty() {
            let device = read_device(alloc, items, pins, (place + 1) as u32, &board, text)?;
            board.add(device)?;
        }
    }
    Ok(board)
}
