//! What is put behind a draft.
ghost use Rattle.std.specs.Prelude.{◌≡◌, IfOk, OnOk};
ghost use Rattle.step_program.specs.Programs.{Temp};
ghost use Rattle.step_pieces.specs.Pieces.{held, top};
ghost use Rattle.step_pieces.specs.Drafts.{piece_of};
ghost use Rattle.lowered_values.specs.Operands.{operand_of};
ghost use Rattle.lowered_values.specs.Code.{made, plain};

use crate::operands::{Formula, Source};
use lisa_words::NoMemory;
use step_pieces::{Draft, Leaf};

/// One temp more, which holds what is made of operands.
pub fn keep(draft: &mut Draft, formula: Formula) -> Result<Source, NoMemory>
    ensures draft { OnOk result (piece_of draft.new ≡ held 0 (piece_of draft.old) (made formula).width (made formula).at) }
    ensures out { IfOk result (λ x. plain x ≡ operand_of (made formula).kind (made formula).width (Temp (top 0 (piece_of draft.old)))) }
{
    let Formula { at, kind, width } = formula;
    let temp = draft.hold(width, at)?;
    Ok(Source {
        at: Leaf::Temp(temp),
        kind,
        width,
    })
}
