//! Behaviours with the children that they assign and call.
ghost use Rattle.std.specs.Prelude.{◌≡◌, ◌≤◌, ◌∷◌, IfOk, OnOk, map, option_map};
ghost use Rattle.lisa_tree.specs.Statements.{stmt_trees, stmts_depth};
ghost use Rattle.lisa_tree.specs.Descriptions.{description_depth};
ghost use Rattle.lisa_tree.specs.Operations.{sections_at, behavior_in};
ghost use Rattle.scene_paths.specs.Lookups.{tree_of};
ghost use Rattle.step_pieces.specs.Drafts.{leaf_tree};
ghost use Rattle.lowered_statements.specs.Code.{Adds, base, callee_of};
ghost use Rattle.lowered_behaviors.specs.Standpoints.{running};
ghost use Rattle.lowered_behaviors.specs.Behaviors.{behavior};
ghost use Rattle.lowered_behaviors.specs.Code.{body_at, callee_at, fewer, ground_of, scenes_of, test_of};
ghost use Rattle.lowered_behaviors.specs.Positions.{alternatives_in, home_in, standpoint_of};

use crate::alternatives::{Alternatives, child_alternatives};
use crate::flags::flag;
use crate::ground::Ground;
use crate::places::put;
use crate::positions::{Position, below, home, running};
use crate::values::value;
use lisa_tree::{Expr, Stmt};
use lisa_words::{Name, NoMemory};
use lowered_resources::{Placing, flush, stall};
use lowered_statements::{Callee, Given, Locals, Lowers, state_scene};
use lowered_values::Source;
use scene_paths::Described;
use std::alloc::Global;
use std::marker::Model;
use step_pieces::{Draft, Leaf};

/// Where a behaviour runs, and how many levels of calls are left, its own among them.
#[derive(Drop)]
pub struct Scene {
    positions: Vec<Position>,
    levels: usize,
}

impl Model for Scene {
    ghost use Rattle.std.specs.Prelude.{ℕ, List};
    ghost use Rattle.lowered_behaviors.specs.declared.positions.Position.{Position};

    ghost Value = { List Position × ℕ };

    ghost view = { λ s. (s.positions.items, s.levels) };
}

/// What behaviours are lowered in.
#[derive(Drop)]
struct Lowering<'g, 'a, P> {
    ground: &'g Ground<'a, P>,
}

// The flag by which an operation is called, where a word chooses it.
fn test_of<P: Placing>(
    ground: &Ground<'_, P>,
    positions: &[Position],
) -> Result<Option<Leaf>, NoMemory>
    ensures { IfOk result (λ test. option_map leaf_tree test ≡ test_of (ground_of P.places ground.now) positions.now) }
{
    if ground.way(positions).is_none() {
        return Ok(None);
    }
    let flag = flag(ground, positions)?;
    Ok(Some(flag))
}

// An alternative of a child that is called.
fn callee_at<P: Placing>(
    ground: &Ground<'_, P>,
    here: Position,
    home: &[Position],
    levels: usize,
) -> Result<Callee<Scene>, NoMemory>
    ensures { IfOk result (λ c. callee_of c ≡ callee_at (ground_of P.places ground.now) levels (here ∷ home.now)) }
{
    let positions = below(ground.alloc, here, home)?;
    let test = test_of(ground, &positions)?;
    Ok(Callee {
        scene: Scene { positions, levels },
        test,
    })
}

// The alternatives of a child that is called, one after the other.
fn callees<P: Placing>(
    ground: &Ground<'_, P>,
    positions: &[Position],
    levels: usize,
    name: &Name,
) -> Result<Vec<Callee<Scene>>, NoMemory>
    ensures { IfOk result (λ called. map callee_of called.items ≡ map (callee_at (ground_of P.places ground.now) levels) (alternatives_in (tree_of ground.now.words.now.described.now) name.now (home_in (tree_of ground.now.words.now.described.now) name.now positions.now))) }
{
    let home = home(ground.words.described, positions, name);
    let Alternatives { operations, reach } = child_alternatives(ground, home, name);
    let mut callees = Vec::new(ground.alloc);
    'each: for operation in operations {
        let here = Position {
            operation: *operation,
            reach,
        };
        let callee = callee_at(ground, here, home, levels)?;
        callees.push(callee)?;
    }
    Ok(callees)
}

// One less, where there is one.
fn fewer(levels: usize) -> usize
    ensures { result ≡ fewer levels }
{
    if levels == 0 { 0 } else { levels - 1 }
}

// The BEHAVIOR of the first operation, where levels are left; none has no statements.
fn body<'a>(described: &'a Described<'_>, positions: &[Position], levels: usize) -> &'a [Stmt]
    ensures all { stmt_trees result.now ≡ body_at levels (behavior_in (sections_at (tree_of described.now) (running (standpoint_of (tree_of described.now) positions.now)))) }
    ensures shallow { stmts_depth (stmt_trees result.now) ≤ description_depth (tree_of described.now) }
{
    if levels == 0 {
        return &[];
    }
    match described.behavior(running(positions)) {
        None => &[],
        Some(all) => all,
    }
}

impl<'g, 'a, P: Placing> Lowers for Lowering<'g, 'a, P> {
    type Scene = Scene;

    ghost scenes = { λ l. scenes_of (ground_of P.places l.ground.now) };

    ghost depth = { λ l. description_depth (tree_of l.ground.now.words.now.described.now) };

    fn alloc(&self) -> Global {
        self.ground.alloc
    }

    fn read(
        &self,
        scene: &Scene,
        locals: &Locals,
        e: &Expr,
        draft: &mut Draft,
    ) -> Result<Source, NoMemory> {
        value(self.ground, &scene.positions, locals, e, draft)
    }

    fn put(
        &self,
        scene: &Scene,
        locals: &Locals,
        guard: Leaf,
        target: &Expr,
        given: Given,
        draft: &mut Draft,
    ) -> Result<(), NoMemory> {
        put(
            self.ground,
            &scene.positions,
            locals,
            guard,
            target,
            given,
            draft,
        )
    }

    fn stall(
        &self,
        _scene: &Scene,
        guard: Leaf,
        stage: &Name,
        draft: &mut Draft,
    ) -> Result<(), NoMemory> {
        stall(
            self.ground.words.described,
            self.ground.placing,
            guard,
            stage,
            draft,
        )
    }

    fn flush(
        &self,
        _scene: &Scene,
        guard: Leaf,
        stage: &Name,
        draft: &mut Draft,
    ) -> Result<(), NoMemory> {
        flush(
            self.ground.words.described,
            self.ground.placing,
            guard,
            stage,
            draft,
        )
    }

    fn callees(&self, scene: &Scene, name: &Name) -> Result<Vec<Callee<Scene>>, NoMemory> {
        callees(self.ground, &scene.positions, fewer(scene.levels), name)
    }

    fn body(&self, scene: &Scene) -> &[Stmt] {
        body(self.ground.words.described, &scene.positions, scene.levels)
    }
}

/// Puts the temps and steps of the BEHAVIOR of the first operation, with all that it calls, behind those that are there, under a guard.
/// The only other answer is want of memory, or of numbers for temps.
pub fn lower_behavior<P: Placing>(
    ground: &Ground<'_, P>,
    positions: Vec<Position>,
    guard: Leaf,
    draft: &mut Draft,
) -> Result<(), NoMemory>
    ensures { OnOk result (Adds draft.old draft.new (behavior (ground_of P.places ground.now) (standpoint_of (tree_of ground.now.words.now.described.now) positions.items) (leaf_tree guard) (base draft.old))) }
{
    let lowering = Lowering { ground };
    let levels = ground.words.described.levels();
    let scene = Scene { positions, levels };
    state_scene(&lowering, &scene, levels, guard, draft)?;
    Ok(())
}
