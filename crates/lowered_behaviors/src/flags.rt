//! What a row tells of an operation's part.
ghost use Rattle.std.specs.Prelude.{◌≡◌, ◌<◌, IfOk, OnOk};
ghost use Rattle.step_program.specs.Programs.{Const};
ghost use Rattle.scene_paths.specs.Lookups.{tree_of};
ghost use Rattle.step_pieces.specs.Drafts.{leaf_tree};
ghost use Rattle.lowered_values.specs.Code.{plain};
ghost use Rattle.lowered_statements.specs.Code.{Adds, base};
ghost use Rattle.lowered_behaviors.specs.Standpoints.{own_way};
ghost use Rattle.lowered_behaviors.specs.Values.{decoded_in, flag, label_at};
ghost use Rattle.lowered_behaviors.specs.Code.{ground_of, guard_out, guard_piece};
ghost use Rattle.lowered_behaviors.specs.Positions.{standpoint_of};

use crate::ground::Ground;
use crate::known::absent;
use crate::positions::Position;
use lisa_words::{Kind, Name, NoMemory, Word};
use lowered_resources::Placing;
use lowered_values::{Source, two};
use step_pieces::{Draft, Leaf};
use step_program::TwoOp;

// One bit that is the same always.
fn bit(bits: u64) -> Leaf
    requires { bits < 2 }
    ensures { leaf_tree result ≡ Const 1 bits }
{
    Leaf::Const(Word { bits, width: 1 })
}

/// Whether the row's word chooses the first operation; what no word chooses is chosen always.
pub(crate) fn flag<P: Placing>(
    ground: &Ground<'_, P>,
    positions: &[Position],
) -> Result<Leaf, NoMemory>
    ensures { IfOk result (λ l. leaf_tree l ≡ flag (tree_of ground.now.words.now.described.now) ground.now.row (own_way (standpoint_of (tree_of ground.now.words.now.described.now) positions.now))) }
{
    match ground.way(positions) {
        None => Ok(bit(1)),
        Some(way) => match ground.row {
            None => Ok(bit(0)),
            Some(base) => {
                let flag = ground.words.flag(base, way)?;
                Ok(flag)
            }
        },
    }
}

/// Whether the row's word decodes.
pub(crate) fn decoded<P: Placing>(ground: &Ground<'_, P>) -> Result<Source, NoMemory>
    ensures { IfOk result (λ x. plain x ≡ decoded_in ground.now.row) }
{
    match ground.row {
        None => Ok(absent()),
        Some(base) => {
            let at = ground.words.decoded(base)?;
            Ok(Source {
                at,
                kind: Kind::Unsigned,
                width: 1,
            })
        }
    }
}

/// A label of the operation that declares it.
pub(crate) fn label<P: Placing>(
    ground: &Ground<'_, P>,
    home: &[Position],
    name: &Name,
    draft: &mut Draft,
) -> Result<Source, NoMemory>
    ensures draft { OnOk result (Adds draft.old draft.new (label_at (ground_of P.places ground.now) (base draft.old) name.now (standpoint_of (tree_of ground.now.words.now.described.now) home.now)).piece) }
    ensures out { IfOk result (λ x. plain x ≡ (label_at (ground_of P.places ground.now) (base draft.old) name.now (standpoint_of (tree_of ground.now.words.now.described.now) home.now)).out) }
{
    match ground.row {
        None => Ok(absent()),
        Some(base) => match ground.way(home) {
            None => Ok(absent()),
            Some(way) => {
                let source = ground.words.label(ground.alloc, base, way, name, draft)?;
                Ok(source)
            }
        },
    }
}

/// The guard of what is done by an alternative: one temp more where a word chooses it.
pub(crate) fn guard_on<P: Placing>(
    ground: &Ground<'_, P>,
    positions: &[Position],
    guard: Leaf,
    draft: &mut Draft,
) -> Result<Leaf, NoMemory>
    ensures draft { OnOk result (Adds draft.old draft.new (guard_piece (ground_of P.places ground.now) (leaf_tree guard) (own_way (standpoint_of (tree_of ground.now.words.now.described.now) positions.now)) (base draft.old))) }
    ensures out { IfOk result (λ l. leaf_tree l ≡ guard_out (leaf_tree guard) (own_way (standpoint_of (tree_of ground.now.words.now.described.now) positions.now)) (base draft.old)) }
{
    if ground.way(positions).is_none() {
        return Ok(guard);
    }
    let chosen = flag(ground, positions)?;
    let both = two(
        ground.alloc,
        TwoOp::And,
        guard.expression(),
        chosen.expression(),
    )?;
    let temp = draft.hold(1, both)?;
    Ok(Leaf::Temp(temp))
}
