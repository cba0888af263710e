//! Expressions of one bit.

ghost use Rattle.std.specs.Prelude.{◌≡◌, IfOk};
ghost use Rattle.step_program.specs.Programs.{Two, Choose, Const, expr_tree};
ghost use Rattle.step_pieces.specs.Pieces.{always};
ghost use Rattle.step_pieces.specs.Drafts.{leaf_tree};
ghost use Rattle.lowered_time.specs.Pieces.{both, either, none};

use lisa_words::{NoMemory, Word};
use std::alloc::Global;
use step_pieces::Leaf;
use step_program::{StepExpr, TwoOp};

fn two(alloc: Global, two: TwoOp, x: StepExpr, y: StepExpr) -> Result<StepExpr, NoMemory>
    ensures { IfOk result (λ e. expr_tree e ≡ Two two (expr_tree x) (expr_tree y)) }
{
    let x = Box::new(alloc, x)?;
    let y = Box::new(alloc, y)?;
    Ok(StepExpr::Two(two, x, y))
}

// Whether both hold.
pub(crate) fn both(alloc: Global, x: StepExpr, y: StepExpr) -> Result<StepExpr, NoMemory>
    ensures { IfOk result (λ e. expr_tree e ≡ both (expr_tree x) (expr_tree y)) }
{
    two(alloc, TwoOp::And, x, y)
}

// Whether one of them holds.
pub(crate) fn either(alloc: Global, x: StepExpr, y: StepExpr) -> Result<StepExpr, NoMemory>
    ensures { IfOk result (λ e. expr_tree e ≡ either (expr_tree x) (expr_tree y)) }
{
    two(alloc, TwoOp::Or, x, y)
}

// Whether it doesn't hold.
pub(crate) fn none(alloc: Global, x: StepExpr) -> Result<StepExpr, NoMemory>
    ensures { IfOk result (λ e. expr_tree e ≡ none (expr_tree x)) }
{
    two(alloc, TwoOp::Equal, x, no_bit().expression())
}

// The first one where the test holds, and else the other one.
pub(crate) fn choose(
    alloc: Global,
    test: StepExpr,
    this: StepExpr,
    other: StepExpr,
) -> Result<StepExpr, NoMemory>
    ensures { IfOk result (λ e. expr_tree e ≡ Choose (expr_tree test) (expr_tree this) (expr_tree other)) }
{
    let test = Box::new(alloc, test)?;
    let this = Box::new(alloc, this)?;
    let other = Box::new(alloc, other)?;
    Ok(StepExpr::Choose(test, this, other))
}

// What always holds.
pub(crate) fn always() -> Leaf
    ensures { leaf_tree result ≡ always }
{
    Leaf::Const(Word { bits: 1, width: 1 })
}

// What never holds.
pub(crate) fn no_bit() -> Leaf
    ensures { leaf_tree result ≡ Const 1 0 }
{
    Leaf::Const(Word { bits: 0, width: 1 })
}
