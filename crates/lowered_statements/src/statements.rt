//! Statements as pieces of a step program.
ghost use Rattle.std.specs.Prelude.{◌≡◌, ◌≤◌, ◌+◌, Some, OnOk, [], length, slice_index_or, map};
ghost use Rattle.lisa_tree.specs.Statements.{head_tree, stmt_depth, stmt_tree, stmt_trees, stmts_depth};
ghost use Rattle.shape_checks.specs.Bounds.{bounds_of, turns};
ghost use Rattle.step_pieces.specs.Pieces.{nothing};
ghost use Rattle.step_pieces.specs.Drafts.{leaf_tree};
ghost use Rattle.lowered_statements.specs.Scopes.{entered};
ghost use Rattle.lowered_statements.specs.Scenes.{body_piece, call_piece, calls_within, ways_within};
ghost use Rattle.lowered_statements.specs.Stated.{counter_of, looped, stated, stated_all};
ghost use Rattle.lowered_statements.specs.Code.{Adds, base, callee_of, local_of, scope_of, turns_piece};

use crate::pieces::{
    counter_at, declare, guard_both, guard_called, guard_on, release_temps, set_counter, whole,
};
use crate::scenes::{Callee, Lowers};
use crate::scopes::Locals;
use lisa_tree::{ForHead, Shape, Stmt};
use lisa_words::{Name, NoMemory};
use shape_checks::{Bounds, bounds_of};
use step_pieces::{Draft, Leaf};

#[cycle(statements)]
fn state<L: Lowers>(
    lowers: &L,
    scene: &L::Scene,
    levels: usize,
    locals: &mut Locals,
    guard: Leaf,
    statement: &Stmt,
    draft: &mut Draft,
) -> Result<(), NoMemory>
    requires { stmt_depth (stmt_tree statement.now) ≤ L.depth lowers.now }
    ensures draft { OnOk result (Adds draft.old draft.new (stated (ways_within (L.scenes lowers.now) levels scene.now) (scope_of locals.old) (leaf_tree guard) (base draft.old) (stmt_tree statement.now)).piece) }
    ensures scope { OnOk result (scope_of locals.new ≡ (stated (ways_within (L.scenes lowers.now) levels scene.now) (scope_of locals.old) (leaf_tree guard) (base draft.old) (stmt_tree statement.now)).scope) }
{
    match statement {
        Stmt::Block(all) => {
            state_block(lowers, scene, levels, locals, guard, all.as_slice(), draft)?;
            Ok(())
        }
        Stmt::Local(shape, name, value) => {
            declare(lowers, scene, locals, *shape, name, value, draft)?;
            Ok(())
        }
        Stmt::Assign(target, value) => {
            let given = whole(lowers, scene, locals, value, draft)?;
            lowers.put(scene, locals, guard, target, given, draft)?;
            Ok(())
        }
        Stmt::If(test, chosen, other) => match other {
            None => {
                let on = guard_on(lowers, scene, locals, guard, test, draft)?;
                state_body(lowers, scene, levels, locals, on, chosen, draft)?;
                Ok(())
            }
            Some(other) => {
                let guards = guard_both(lowers, scene, locals, guard, test, draft)?;
                state_body(lowers, scene, levels, locals, guards.0, chosen, draft)?;
                state_body(lowers, scene, levels, locals, guards.1, other, draft)?;
                Ok(())
            }
        },
        Stmt::For(head, body) => {
            state_loop(lowers, scene, levels, locals, guard, head, body, draft)?;
            Ok(())
        }
        Stmt::Call(name) => {
            state_calls(lowers, scene, levels, guard, name, draft)?;
            Ok(())
        }
        Stmt::Stall(_, stage) => {
            lowers.stall(scene, guard, stage, draft)?;
            Ok(())
        }
        Stmt::Flush(_, stage) => {
            lowers.flush(scene, guard, stage, draft)?;
            Ok(())
        }
        Stmt::Empty | Stmt::While(_, _) | Stmt::Execute(_) | Stmt::Shift(_) => Ok(()),
    }
}

// A statement that is a whole body; the locals that it declares end with it.
#[cycle(statements)]
fn state_body<L: Lowers>(
    lowers: &L,
    scene: &L::Scene,
    levels: usize,
    locals: &mut Locals,
    guard: Leaf,
    body: &Stmt,
    draft: &mut Draft,
) -> Result<(), NoMemory>
    requires { stmt_depth (stmt_tree body.now) ≤ L.depth lowers.now }
    ensures draft { OnOk result (Adds draft.old draft.new (stated (ways_within (L.scenes lowers.now) levels scene.now) (scope_of locals.old) (leaf_tree guard) (base draft.old) (stmt_tree body.now)).piece) }
    ensures scope { OnOk result (scope_of locals.new ≡ scope_of locals.old) }
{
    let outer = locals.count();
    state(lowers, scene, levels, locals, guard, body, draft)?;
    locals.leave(outer);
    Ok(())
}

// The statements of a block.
#[cycle(statements)]
fn state_block<L: Lowers>(
    lowers: &L,
    scene: &L::Scene,
    levels: usize,
    locals: &mut Locals,
    guard: Leaf,
    all: &[Stmt],
    draft: &mut Draft,
) -> Result<(), NoMemory>
    requires { stmts_depth (stmt_trees all.now) ≤ L.depth lowers.now }
    ensures draft { OnOk result (Adds draft.old draft.new (stated_all (ways_within (L.scenes lowers.now) levels scene.now) (scope_of locals.old) (leaf_tree guard) (base draft.old) (stmt_trees all.now)).piece) }
    ensures scope { OnOk result (scope_of locals.new ≡ scope_of locals.old) }
{
    let outer = locals.count();
    state_all(lowers, scene, levels, locals, guard, all, draft)?;
    locals.leave(outer);
    Ok(())
}

/// Puts the temps and steps of statements behind those that are there: they do what the statements do where the guard is 1, and nothing
/// where it is 0. The locals that they declare are in scope behind them. Calls are so many levels deep; a deeper one does nothing. The
/// only other answer is want of memory.
#[cycle(statements)]
pub fn state_all<L: Lowers>(
    lowers: &L,
    scene: &L::Scene,
    levels: usize,
    locals: &mut Locals,
    guard: Leaf,
    all: &[Stmt],
    draft: &mut Draft,
) -> Result<(), NoMemory>
    requires { stmts_depth (stmt_trees all.now) ≤ L.depth lowers.now }
    ensures draft { OnOk result (Adds draft.old draft.new (stated_all (ways_within (L.scenes lowers.now) levels scene.now) (scope_of locals.old) (leaf_tree guard) (base draft.old) (stmt_trees all.now)).piece) }
    ensures scope { OnOk result (scope_of locals.new ≡ (stated_all (ways_within (L.scenes lowers.now) levels scene.now) (scope_of locals.old) (leaf_tree guard) (base draft.old) (stmt_trees all.now)).scope) }
{
    'each: for statement in all {
        state(lowers, scene, levels, locals, guard, statement, draft)?;
    }
    Ok(())
}

// The turns of a loop, whose variable has its temp: each takes the temps of the one before again.
#[cycle(statements)]
fn state_turns<L: Lowers>(
    lowers: &L,
    scene: &L::Scene,
    levels: usize,
    locals: &mut Locals,
    guard: Leaf,
    counter: (u32, Shape, Bounds),
    body: &Stmt,
    draft: &mut Draft,
) -> Result<(), NoMemory>
    requires step { 1 ≤ counter.2.step }
    requires some { 1 ≤ turns counter.2 }
    requires shallow { stmt_depth (stmt_tree body.now) ≤ L.depth lowers.now }
    ensures draft { OnOk result (Adds draft.old draft.new (turns_piece counter.0 counter.1 (stated (ways_within (L.scenes lowers.now) levels scene.now) (scope_of locals.old) (leaf_tree guard) (base draft.old) (stmt_tree body.now)).piece counter.2)) }
    ensures scope { OnOk result (scope_of locals.new ≡ scope_of locals.old) }
{
    let (temp, shape, bounds) = counter;
    let count = draft.temps.len();
    let turns = bounds.turns();
    'turns: for turn in 0..turns {
        let bits = bounds.first + turn * bounds.step;
        release_temps(draft, count);
        set_counter(temp, shape, bits, draft)?;
        state_body(lowers, scene, levels, locals, guard, body, draft)?;
    }
    Ok(())
}

#[cycle(statements)]
fn state_loop<L: Lowers>(
    lowers: &L,
    scene: &L::Scene,
    levels: usize,
    locals: &mut Locals,
    guard: Leaf,
    head: &ForHead,
    body: &Stmt,
    draft: &mut Draft,
) -> Result<(), NoMemory>
    requires { stmt_depth (stmt_tree body.now) ≤ L.depth lowers.now }
    ensures draft { OnOk result (Adds draft.old draft.new (looped (base draft.old) (head_tree head.now).shape (stated (ways_within (L.scenes lowers.now) levels scene.now) (entered (scope_of locals.old) (head_tree head.now).name (counter_of (base draft.old) (head_tree head.now).shape)) (leaf_tree guard) (base draft.old + 1) (stmt_tree body.now)).piece (bounds_of (head_tree head.now)))) }
    ensures scope { OnOk result (scope_of locals.new ≡ scope_of locals.old) }
{
    let Some(bounds) = bounds_of(head) else {
        return Ok(());
    };
    let Some(shape) = head.shape else {
        return Ok(());
    };
    if bounds.turns() == 0 {
        return Ok(());
    }
    let counter = counter_at(shape, draft)?;
    let outer = locals.count();
    locals.enter(&head.name, counter)?;
    let variable = (counter.temp, shape, bounds);
    state_turns(lowers, scene, levels, locals, guard, variable, body, draft)?;
    locals.leave(outer);
    Ok(())
}

// What the name of a child calls, one after the other.
#[cycle(statements)]
fn state_calls<L: Lowers>(
    lowers: &L,
    scene: &L::Scene,
    levels: usize,
    guard: Leaf,
    name: &Name,
    draft: &mut Draft,
) -> Result<(), NoMemory>
    ensures { OnOk result (Adds draft.old draft.new (calls_within (L.scenes lowers.now) levels scene.now (leaf_tree guard) (base draft.old) name.now)) }
{
    if levels == 0 {
        return Ok(());
    }
    let callees = lowers.callees(scene, name)?;
    'called: for callee in &callees {
        state_callee(lowers, levels - 1, guard, callee, draft)?;
    }
    Ok(())
}

#[cycle(statements)]
fn state_callee<L: Lowers>(
    lowers: &L,
    levels: usize,
    guard: Leaf,
    callee: &Callee<L::Scene>,
    draft: &mut Draft,
) -> Result<(), NoMemory>
    ensures { OnOk result (Adds draft.old draft.new (call_piece (L.scenes lowers.now) (calls_within (L.scenes lowers.now) levels) (callee_of callee.now).0 (callee_of callee.now).1 (leaf_tree guard) (base draft.old))) }
{
    match callee.test {
        None => {
            state_scene(lowers, &callee.scene, levels, guard, draft)?;
            Ok(())
        }
        Some(test) => {
            let on = guard_called(lowers.alloc(), guard, test, draft)?;
            state_scene(lowers, &callee.scene, levels, on, draft)?;
            Ok(())
        }
    }
}

/// Puts the temps and steps of what runs in a scene behind those that are there, under a guard. It begins without locals, and calls are
/// so many levels deep. The only other answer is want of memory.
#[cycle(statements)]
pub fn state_scene<L: Lowers>(
    lowers: &L,
    scene: &L::Scene,
    levels: usize,
    guard: Leaf,
    draft: &mut Draft,
) -> Result<(), NoMemory>
    ensures { OnOk result (Adds draft.old draft.new (body_piece (L.scenes lowers.now) (calls_within (L.scenes lowers.now) levels) scene.now (leaf_tree guard) (base draft.old))) }
{
    let mut locals = Locals::new(lowers.alloc());
    let all = lowers.body(scene);
    state_all(lowers, scene, levels, &mut locals, guard, all, draft)?;
    Ok(())
}
