// The own lengths of expressions.
ghost use Rattle.std.specs.Prelude.{◌≡◌};
ghost use Rattle.verilog_text.specs.Values.{v_width, parts_width as width_of_parts};
ghost use Rattle.verilog_places.specs.Trees.{placed_tree, placed_trees, bare, bare_parts};
ghost use Rattle.verilog_size_checks.specs.Sought.{capped};
ghost use Rattle.verilog_size_checks.specs.Scopes.{widths_in};

use crate::lengths::{larger, one_width, repeated, selected, together, two_width};
use crate::scope::Scope;
use verilog_places::PlacedExpr;

/// The own length of an expression. It doesn't go into indexes.
#[cycle(widths)]
#[tactic(auto, using(crate::proofs::LengthLaws::capped_small))]
pub fn own_width(scope: &Scope<'_>, e: &PlacedExpr) -> u32
    ensures { result ≡ capped (v_width (widths_in scope.now) (bare (placed_tree e.now))) }
{
    match e {
        PlacedExpr::Number(_, word) => word.width,
        PlacedExpr::Named(_, name) => scope.width(name),
        PlacedExpr::Bits(_, _, high, low) => selected(*high, *low),
        PlacedExpr::Cell(_, name, _) => scope.cell_width(name),
        PlacedExpr::One(_, one, a) => one_width(*one, own_width(scope, a)),
        PlacedExpr::Two(_, operator, a, b) => two_width(
            *operator,
            own_width(scope, a),
            own_width(scope, b),
        ),
        PlacedExpr::Choose(_, _, this, other) => larger(
            own_width(scope, this),
            own_width(scope, other),
        ),
        PlacedExpr::Join(_, parts) => parts_width(scope, parts),
        PlacedExpr::Repeat(_, times, a) => repeated(*times, own_width(scope, a)),
    }
}

// The length of parts together.
#[cycle(widths)]
fn parts_width(scope: &Scope<'_>, parts: &[PlacedExpr]) -> u32
    ensures { result ≡ capped (width_of_parts (widths_in scope.now) (bare_parts (placed_trees parts.now))) }
{
    let mut width = 0;
    'each: for part in parts {
        width = together(width, own_width(scope, part));
    }
    width
}
