//! Operands that wait for what stands behind their operator.

ghost use Rattle.std.specs.Prelude.{◌≡◌, ◌<◌, ◌≤◌, ◌^◌, ℕ, suc, max, [], IfOk};
ghost use Rattle.lisa_words.specs.declared.binary.Operator.{Operator};
ghost use Rattle.operator_levels.specs.declared.operands.JoinFault.TheVariants.{NoMemory as NoRoom};
ghost use Rattle.lisa_words.specs.Operators.{level_of};
ghost use Rattle.operator_levels.specs.Stacks.{stack_of, stack_in, joined_before, pushed, finished, JoinGives};

use lisa_words::{NoMemory, Operator, level};
use std::alloc::{AllocError, AllocFailed, Global};

/// A tree that two trees and an operator make.
pub trait Joined: Drop {
    ghost Plain: { Type 0 };

    ghost view: { Self → Plain };

    ghost two: { Operator → Plain → Plain → Plain };

    ghost deep: { Plain → ℕ };

    /// How deep it is.
    fn depth(&self) -> u32
        ensures { result ≡ deep (view self.now) };

    /// The tree of two, which is one deeper than the deeper of them.
    fn join(alloc: Global, operator: Operator, left: Self, right: Self) -> Result<Self, NoMemory>
        requires { deep (two operator (view left) (view right)) < 2 ^ 32 }
        ensures { IfOk result (λ x. view x ≡ two operator (view left) (view right)) };

    ghost deepens: { (o : Operator) (a b : Plain) → deep (two o a b) ≡ suc (max (deep a) (deep b)) };
}

/// Why operands make no tree.
#[derive(Clone, Copy, Debug, PartialEq, Eq)]
pub enum JoinFault {
    /// A tree would be deeper than the limit.
    TooDeep,
    /// Memory was wanted and not given.
    NoMemory,
}

impl From<NoMemory> for JoinFault {
    ghost from_gives = { λ _ e. e ≡ NoRoom };

    fn from(_error: NoMemory) -> JoinFault {
        JoinFault::NoMemory
    }
}

impl From<AllocError> for JoinFault {
    ghost from_gives = { λ _ e. e ≡ NoRoom };

    fn from(_error: AllocError) -> JoinFault {
        JoinFault::NoMemory
    }
}

impl<T: Drop> From<AllocFailed<T>> for JoinFault {
    ghost from_gives = { λ _ e. e ≡ NoRoom };

    fn from(_error: AllocFailed<T>) -> JoinFault {
        JoinFault::NoMemory
    }
}

// An operand and the operator behind it.
#[derive(Drop)]
pub struct Waiting<T> {
    operand: T,
    operator: Operator,
}

/// The operands that wait for a later one, each with the operator behind it. At most ten wait at a time, since what a tighter or
/// equal operator has joined doesn't.
#[derive(Drop)]
pub struct Operands<T> {
    waiting: Vec<Waiting<T>>,
}

impl<T: Joined> Operands<T> {
    /// None so far.
    pub fn new(alloc: Global) -> Self
        ensures { stack_in T.view result ≡ [] }
    {
        Operands {
            waiting: Vec::new(alloc),
        }
    }

    /// With an operand and the operator behind it.
    pub fn push(
        self,
        alloc: Global,
        operand: T,
        operator: Operator,
        limit: u32,
    ) -> Result<Self, JoinFault>
        ensures { JoinGives (stack_in T.view) result (pushed T.two T.deep limit (stack_in T.view self) (T.view operand) operator) }
    {
        let Operands { mut waiting } = self;
        let operand = join_before(alloc, &mut waiting, operand, level(operator), limit)?;
        waiting.push(Waiting { operand, operator })?;
        Ok(Operands { waiting })
    }

    /// The tree of all, with the last operand.
    pub fn finish(self, alloc: Global, operand: T, limit: u32) -> Result<T, JoinFault>
        ensures { JoinGives T.view result (finished T.two T.deep limit (stack_in T.view self) (T.view operand)) }
    {
        let Operands { mut waiting } = self;
        join_before(alloc, &mut waiting, operand, 1, limit)
    }
}

// Joins an operand with those that wait behind operators of this level or tighter ones.
fn join_before<T: Joined>(
    alloc: Global,
    waiting: &mut Vec<Waiting<T>>,
    operand: T,
    at: u8,
    limit: u32,
) -> Result<T, JoinFault>
    ensures { JoinGives (λ x. (stack_of T.view waiting.new.items, T.view x)) result (joined_before T.two T.deep limit at (stack_of T.view waiting.old.items) (T.view operand)) }
{
    let Some(last) = waiting.pop() else {
        return Ok(operand);
    };
    if level(last.operator) < at {
        waiting.push(last)?;
        return Ok(operand);
    }
    let Waiting {
        operand: left,
        operator,
    } = last;
    if limit <= left.depth().max(operand.depth()) {
        return Err(JoinFault::TooDeep);
    }
    let both = T::join(alloc, operator, left, operand)?;
    join_before(alloc, waiting, both, at, limit)
}
