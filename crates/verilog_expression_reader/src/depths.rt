// Expressions with their depth.

ghost use Rattle.std.specs.Prelude.{◌≡◌, suc, max, refl, IfOk, IfErr};
ghost use Rattle.verilog_text.specs.Trees.{parts_depth};
ghost use Rattle.verilog_places.specs.Trees.{PlacedTree, Then, End, placed_tree, placed_trees, bare_parts, two};
ghost use Rattle.verilog_expression_reader.specs.Reading.{all_then, depth as depth_of};
ghost use Rattle.verilog_expression_reader.specs.declared.misses.Missed.TheVariants.{NoMemory as NoRoom};

use crate::misses::Missed;
use lisa_words::{NoMemory, Operator};
use operator_levels::Joined;
use std::alloc::Global;
use verilog_places::PlacedExpr;

/// An expression and its depth.
#[derive(Drop)]
pub struct Measured {
    pub tree: PlacedExpr,
    pub depth: u32,
    ghost counted: { depth ≡ depth_of (placed_tree tree) },
}

impl Joined for Measured {
    ghost Plain = { PlacedTree };

    ghost view = { λ m. placed_tree m.tree };

    ghost two = { λ o a b. two o a b };

    ghost deep = { λ t. depth_of t };

    ghost deepens = { λ o a b. refl };

    fn depth(&self) -> u32 {
        self.depth
    }

    fn join(
        alloc: Global,
        operator: Operator,
        left: Measured,
        right: Measured,
    ) -> Result<Measured, NoMemory> {
        let depth = left.depth.max(right.depth) + 1;
        let Measured { tree: a, .. } = left;
        let Measured { tree: b, .. } = right;
        let at = a.place();
        let tree = PlacedExpr::Two(at, operator, Box::new(alloc, a)?, Box::new(alloc, b)?);
        Ok(Measured { tree, depth })
    }
}

/// The parts of a concatenation, and the depth of the deepest of them.
#[derive(Drop)]
pub struct MeasuredParts {
    pub parts: Vec<PlacedExpr>,
    pub depth: u32,
    ghost counted: { depth ≡ parts_depth (bare_parts (placed_trees parts.items)) },
}

impl MeasuredParts {
    /// None so far.
    pub fn new(alloc: Global) -> MeasuredParts
        ensures value { placed_trees result.parts.items ≡ End }
        ensures deep { result.depth ≡ 0 }
    {
        MeasuredParts {
            parts: Vec::new(alloc),
            depth: 0,
        }
    }

    /// With one more.
    pub fn with_part(self, part: Measured) -> Result<MeasuredParts, Missed>
        ensures value { IfOk result (λ x. placed_trees x.parts.items ≡ all_then (placed_trees self.parts.items) (Then (placed_tree part.tree) End)) }
        ensures deep { IfOk result (λ x. x.depth ≡ max self.depth part.depth) }
        ensures no_place { IfErr result (λ e. e ≡ NoRoom) }
    {
        let depth = self.depth.max(part.depth);
        let MeasuredParts { mut parts, .. } = self;
        let Measured { tree, .. } = part;
        parts.push(tree)?;
        Ok(MeasuredParts { parts, depth })
    }
}
