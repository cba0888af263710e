//! What assignments are made of.
ghost use Rattle.std.specs.Prelude.{◌≡◌, IfOk, OnOk};
ghost use Rattle.lisa_tree.specs.Expressions.{expr_tree};
ghost use Rattle.step_pieces.specs.Drafts.{leaf_tree};
ghost use Rattle.lowered_values.specs.Code.{plain};
ghost use Rattle.lowered_statements.specs.Code.{Adds, base, given_of, scope_of};
ghost use Rattle.lowered_resources.specs.Putting.{Reads, Stores};

use lisa_tree::Expr;
use lisa_words::{Name, NoMemory};
use lowered_statements::{Given, Locals};
use lowered_values::Source;
use step_pieces::{Draft, Leaf};

/// What assignments of an operation are made of: how expressions are read, and what is done with names that the operation declares.
pub trait Accesses {
    ghost reads: { Self → Reads };

    ghost stores: { Self → Stores };

    /// What leaves the value of an expression in the operand that is answered.
    fn read(&self, locals: &Locals, e: &Expr, draft: &mut Draft) -> Result<Source, NoMemory>
        ensures draft { OnOk result (Adds draft.old draft.new (reads self.now (scope_of locals.now) (base draft.old) (expr_tree e.now)).piece) }
        ensures out { IfOk result (λ x. plain x ≡ (reads self.now (scope_of locals.now) (base draft.old) (expr_tree e.now)).out) };

    /// What gives a declared name what is assigned, under a guard.
    fn store(
        &self,
        name: &Name,
        guard: Leaf,
        given: Given,
        draft: &mut Draft,
    ) -> Result<(), NoMemory>
        ensures { OnOk result (Adds draft.old draft.new (stores self.now name.now (leaf_tree guard) (base draft.old) (given_of given))) };
}
