//! Scenes in which statements run.
ghost use Rattle.std.specs.Prelude.{◌≡◌, ◌≤◌, ℕ, IfOk, OnOk, map};
ghost use Rattle.lisa_tree.specs.Expressions.{expr_tree};
ghost use Rattle.lisa_tree.specs.Statements.{stmt_trees, stmts_depth};
ghost use Rattle.step_pieces.specs.Drafts.{leaf_tree};
ghost use Rattle.lowered_values.specs.Code.{plain};
ghost use Rattle.lowered_statements.specs.Scenes.{Scenes};
ghost use Rattle.lowered_statements.specs.Code.{Adds, base, callee_of, given_of, scope_of};

use crate::scopes::Locals;
use crate::wholes::Given;
use lisa_tree::{Expr, Stmt};
use lisa_words::{Name, NoMemory};
use lowered_values::Source;
use std::alloc::Global;
use step_pieces::{Draft, Leaf};

/// What is called: the scene in which it runs, and one bit that says whether it is, or none where it always is.
#[derive(Drop)]
pub struct Callee<S> {
    pub scene: S,
    pub test: Option<Leaf>,
}

/// What the steps of statements are made of in the scenes in which they run, and what calls lead to. Each call puts temps and steps
/// behind those that are there, or answers want of memory.
pub trait Lowers {
    /// Where statements run.
    type Scene: Drop;

    ghost scenes: { Self → Scenes Self.Scene };

    /// How deep the statements of what is called may be.
    ghost depth: { Self → ℕ };

    fn alloc(&self) -> Global;

    /// What leaves the value of an expression in the operand that is answered.
    fn read(
        &self,
        scene: &Self::Scene,
        locals: &Locals,
        e: &Expr,
        draft: &mut Draft,
    ) -> Result<Source, NoMemory>
        ensures draft { OnOk result (Adds draft.old draft.new ((scenes self.now).reads scene.now (scope_of locals.now) (base draft.old) (expr_tree e.now)).piece) }
        ensures out { IfOk result (λ x. plain x ≡ ((scenes self.now).reads scene.now (scope_of locals.now) (base draft.old) (expr_tree e.now)).out) };

    /// What gives a place an operand, under a guard.
    fn put(
        &self,
        scene: &Self::Scene,
        locals: &Locals,
        guard: Leaf,
        target: &Expr,
        given: Given,
        draft: &mut Draft,
    ) -> Result<(), NoMemory>
        ensures { OnOk result (Adds draft.old draft.new ((scenes self.now).puts scene.now (scope_of locals.now) (leaf_tree guard) (base draft.old) (expr_tree target.now) (given_of given))) };

    /// What holds a stage, under a guard.
    fn stall(
        &self,
        scene: &Self::Scene,
        guard: Leaf,
        stage: &Name,
        draft: &mut Draft,
    ) -> Result<(), NoMemory>
        ensures { OnOk result (Adds draft.old draft.new ((scenes self.now).stalls scene.now (leaf_tree guard) (base draft.old) stage.now)) };

    /// What drops that which stands in a stage, under a guard.
    fn flush(
        &self,
        scene: &Self::Scene,
        guard: Leaf,
        stage: &Name,
        draft: &mut Draft,
    ) -> Result<(), NoMemory>
        ensures { OnOk result (Adds draft.old draft.new ((scenes self.now).flushes scene.now (leaf_tree guard) (base draft.old) stage.now)) };

    /// What the name of a child calls, one after the other.
    fn callees(
        &self,
        scene: &Self::Scene,
        name: &Name,
    ) -> Result<Vec<Callee<Self::Scene>>, NoMemory>
        ensures { IfOk result (λ called. map callee_of called.items ≡ (scenes self.now).callees scene.now name.now) };

    /// The statements that run in a scene.
    fn body(&self, scene: &Self::Scene) -> &[Stmt]
        ensures all { stmt_trees result.now ≡ (scenes self.now).body scene.now }
        ensures shallow { stmts_depth (stmt_trees result.now) ≤ depth self.now };
}
