// What the grammar of expressions comes to.
ghost use Rattle.std.specs.Prelude.{◌≡◌};
ghost use Rattle.verilog_places.specs.Trees.{PlacedTree};
ghost use Rattle.verilog_places.specs.Spelling.{PlacedToks, SpellsPlaced};

/// Tokens spell one expression at most, and its parts begin at one place each.
pub fn one_expression()
    ensures { (ts : PlacedToks) (t u : PlacedTree) → SpellsPlaced 0 ts t → SpellsPlaced 0 ts u → t ≡ u }
{}
