//! Expressions with their depth.

ghost use Rattle.std.specs.Prelude.{◌≡◌, suc, max, refl};
ghost use Rattle.lisa_tree.specs.Expressions.{ExprTree, expr_tree, expr_depth};
ghost use Rattle.lisa_tree.specs.Expressions.{Two};

use lisa_tree::{Expr, Operator};
use lisa_words::NoMemory;
use operator_levels::Joined;
use std::alloc::Global;

/// An expression and its depth.
#[derive(Drop)]
pub struct Measured {
    pub tree: Expr,
    pub depth: u32,
    ghost counted: { depth ≡ expr_depth (expr_tree tree) },
}

impl Joined for Measured {
    ghost Plain = { ExprTree };

    ghost view = { λ m. expr_tree m.tree };

    ghost two = { λ o a b. Two o a b };

    ghost deep = { λ t. expr_depth t };

    ghost deepens = { λ o a b. refl };

    fn depth(&self) -> u32 {
        self.depth
    }

    fn join(
        alloc: Global,
        operator: Operator,
        left: Measured,
        right: Measured,
    ) -> Result<Measured, NoMemory> {
        let depth = left.depth.max(right.depth) + 1;
        let Measured { tree: a, .. } = left;
        let Measured { tree: b, .. } = right;
        let tree = Expr::Two(operator, Box::new(alloc, a)?, Box::new(alloc, b)?);
        Ok(Measured { tree, depth })
    }
}
