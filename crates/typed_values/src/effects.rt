//! Statements that are carried out.

ghost use Rattle.std.specs.Prelude.{◌≡◌, ◌<◌, ◌≤◌, OnOk, length};
ghost use Rattle.std.specs.Prelude.{option_map};
ghost use Rattle.lisa_tree.specs.Expressions.{expr_tree};
ghost use Rattle.lisa_tree.specs.Statements.{head_tree, stmt_tree, stmt_trees};
ghost use Rattle.shape_checks.specs.Bounds.{turns};
ghost use Rattle.typed_values.specs.Words.{typed_word};
ghost use Rattle.typed_values.specs.Expressions.{value};
ghost use Rattle.typed_values.specs.Effects.{Doing, in_kind, whole, with_local, leave, first_of, counter_value, with_counter, loop_turn, turned, looped, effect, effects};

use crate::expressions::literal;
use crate::values::Value;
use crate::wholes::Whole;
use lisa_tree::{Expr, ForHead, Shape, Stmt};
use lisa_words::{Kind, Name, NoMemory};
use shape_checks::{Bounds, bounds_of};

/// What statements read and change. Each call may answer want of memory.
pub trait Does {
    /// What is changed.
    type State;

    /// What contracts see of it.
    type Moment;

    ghost doing: { Self → Doing Self.Moment };

    ghost moment: { Self.State → Self.Moment };

    /// The value of an expression.
    fn value(&self, state: &Self::State, expression: &Expr) -> Value
        ensures { typed_word result ≡ value ((doing self.now).reader (moment state.now)) (expr_tree expression.now) };

    /// Gives a place a value.
    fn put(&self, state: &mut Self::State, target: &Expr, given: Whole) -> Result<(), NoMemory>
        ensures { OnOk result (moment state.new ≡ (doing self.now).put (expr_tree target.now) (in_kind given) (moment state.old)) };

    /// Runs a child in place.
    fn call(&self, state: &mut Self::State, name: &Name) -> Result<(), NoMemory>
        ensures { OnOk result (moment state.new ≡ (doing self.now).call name.now (moment state.old)) };

    /// Holds a stage.
    fn stall(&self, state: &mut Self::State, stage: &Name) -> Result<(), NoMemory>
        ensures { OnOk result (moment state.new ≡ (doing self.now).stall stage.now (moment state.old)) };

    /// Drops what stands in a stage.
    fn flush(&self, state: &mut Self::State, stage: &Name) -> Result<(), NoMemory>
        ensures { OnOk result (moment state.new ≡ (doing self.now).flush stage.now (moment state.old)) };

    /// Gives a local a value, a new one too.
    fn set_local(&self, state: &mut Self::State, name: &Name, value: Value) -> Result<(), NoMemory>
        ensures { OnOk result (moment state.new ≡ with_local (doing self.now) name.now (typed_word value) (moment state.old)) };

    /// How many locals there are.
    fn local_count(&self, state: &Self::State) -> usize
        ensures { result ≡ length ((doing self.now).locals (moment state.now)) };

    /// Lets go of the locals but the first ones.
    fn leave(&self, state: &mut Self::State, count: usize)
        ensures { moment state.new ≡ leave (doing self.now) count (moment state.old) };
}

// All that an expression assigns.
fn whole<D: Does>(doing: &D, state: &D::State, expression: &Expr) -> Whole
    ensures { in_kind result ≡ whole ((D.doing doing.now).reader (D.moment state.now)) (expr_tree expression.now) }
{
    Whole {
        literal: literal(expression),
        value: doing.value(state, expression),
    }
}

fn first_of<D: Does>(doing: &D, state: &D::State, shape: Shape, value: &Option<Expr>) -> Value
    ensures { typed_word result ≡ first_of shape ((D.doing doing.now).reader (D.moment state.now)) (option_map expr_tree value.now) }
{
    match value {
        None => Value::zero_of(shape),
        Some(value) => {
            let given = whole(doing, state, value);
            given.in_kind(shape.kind).as_shape(shape)
        }
    }
}

fn counter_value(shape: Option<Shape>, bits: u64) -> Value
    ensures { typed_word result ≡ counter_value shape bits }
{
    let value = Value::number(Kind::Unsigned, bits);
    match shape {
        None => value,
        Some(shape) => value.as_shape(shape),
    }
}

// Gives a loop's variable its value for a turn.
fn set_counter<D: Does>(
    doing: &D,
    state: &mut D::State,
    head: &ForHead,
    bits: u64,
) -> Result<(), NoMemory>
    ensures { OnOk result (D.moment state.new ≡ with_counter (D.doing doing.now) (head_tree head.now) bits (D.moment state.old)) }
{
    doing.set_local(state, &head.name, counter_value(head.shape, bits))?;
    Ok(())
}

#[cycle(effects)]
fn run<D: Does>(doing: &D, statement: &Stmt, state: &mut D::State) -> Result<(), NoMemory>
    ensures { OnOk result (D.moment state.new ≡ effect (D.doing doing.now) (stmt_tree statement.now) (D.moment state.old)) }
{
    match statement {
        Stmt::Block(all) => {
            run_inner(doing, all.as_slice(), state)?;
            Ok(())
        }
        Stmt::Local(shape, name, value) => {
            let value = first_of(doing, state, *shape, value);
            doing.set_local(state, name, value)?;
            Ok(())
        }
        Stmt::Assign(target, value) => {
            let given = whole(doing, state, value);
            doing.put(state, target, given)?;
            Ok(())
        }
        Stmt::If(test, chosen, other) => {
            if !doing.value(state, test).is_zero() {
                run_alone(doing, chosen, state)?;
                return Ok(());
            }
            if let Some(other) = other {
                run_alone(doing, other, state)?;
            }
            Ok(())
        }
        Stmt::For(head, body) => {
            run_loop(doing, head, body, state)?;
            Ok(())
        }
        Stmt::Call(name) => {
            doing.call(state, name)?;
            Ok(())
        }
        Stmt::Stall(_, stage) => {
            doing.stall(state, stage)?;
            Ok(())
        }
        Stmt::Flush(_, stage) => {
            doing.flush(state, stage)?;
            Ok(())
        }
        Stmt::Empty | Stmt::While(_, _) | Stmt::Execute(_) | Stmt::Shift(_) => Ok(()),
    }
}

// A statement that is a whole body.
#[cycle(effects)]
fn run_alone<D: Does>(doing: &D, body: &Stmt, state: &mut D::State) -> Result<(), NoMemory>
    ensures { OnOk result (D.moment state.new ≡ leave (D.doing doing.now) (length ((D.doing doing.now).locals (D.moment state.old))) (effect (D.doing doing.now) (stmt_tree body.now) (D.moment state.old))) }
{
    let count = doing.local_count(state);
    run(doing, body, state)?;
    doing.leave(state, count);
    Ok(())
}

// The statements of a block.
#[cycle(effects)]
fn run_inner<D: Does>(doing: &D, all: &[Stmt], state: &mut D::State) -> Result<(), NoMemory>
    ensures { OnOk result (D.moment state.new ≡ leave (D.doing doing.now) (length ((D.doing doing.now).locals (D.moment state.old))) (effects (D.doing doing.now) (stmt_trees all.now) (D.moment state.old))) }
{
    let count = doing.local_count(state);
    perform(doing, all, state)?;
    doing.leave(state, count);
    Ok(())
}

/// Carries out statements, one after the other.
#[cycle(effects)]
pub fn perform<D: Does>(doing: &D, all: &[Stmt], state: &mut D::State) -> Result<(), NoMemory>
    ensures { OnOk result (D.moment state.new ≡ effects (D.doing doing.now) (stmt_trees all.now) (D.moment state.old)) }
{
    for statement in all {
        run(doing, statement, state)?;
    }
    Ok(())
}

// One turn of a loop.
#[cycle(effects)]
fn run_turn<D: Does>(
    doing: &D,
    head: &ForHead,
    body: &Stmt,
    bits: u64,
    state: &mut D::State,
) -> Result<(), NoMemory>
    ensures { OnOk result (D.moment state.new ≡ loop_turn (D.doing doing.now) (effect (D.doing doing.now) (stmt_tree body.now)) (head_tree head.now) bits (D.moment state.old)) }
{
    let count = doing.local_count(state);
    set_counter(doing, state, head, bits)?;
    run(doing, body, state)?;
    doing.leave(state, count);
    Ok(())
}

#[cycle(effects)]
fn run_turns<D: Does>(
    doing: &D,
    head: &ForHead,
    body: &Stmt,
    bounds: Bounds,
    state: &mut D::State,
) -> Result<(), NoMemory>
    requires { 1 ≤ bounds.step }
    ensures { OnOk result (D.moment state.new ≡ turned (loop_turn (D.doing doing.now) (effect (D.doing doing.now) (stmt_tree body.now)) (head_tree head.now)) bounds 0 (turns bounds) (D.moment state.old)) }
{
    let turns = bounds.turns();
    'turns: for turn in 0..turns {
        let bits = bounds.first + turn * bounds.step;
        run_turn(doing, head, body, bits, state)?;
    }
    Ok(())
}

#[cycle(effects)]
#[tactic(auto, unfolding(crate::specs::Effects::looped))]
fn run_loop<D: Does>(
    doing: &D,
    head: &ForHead,
    body: &Stmt,
    state: &mut D::State,
) -> Result<(), NoMemory>
    ensures { OnOk result (D.moment state.new ≡ looped (D.doing doing.now) (effect (D.doing doing.now) (stmt_tree body.now)) (head_tree head.now) (D.moment state.old)) }
{
    let Some(bounds) = bounds_of(head) else {
        return Ok(());
    };
    run_turns(doing, head, body, bounds, state)?;
    Ok(())
}
