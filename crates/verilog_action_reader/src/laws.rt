//! What the grammar of actions comes to.

ghost use Rattle.std.specs.Prelude.{◌≡◌, ◌≤◌, ◌++◌, ℕ, Bool, Some, [], true, false};
ghost use Rattle.verilog_text.specs.Trees.{actions_depth};
ghost use Rattle.verilog_places.specs.Trees.{PlacedActions, bare_actions};
ghost use Rattle.verilog_places.specs.Spelling.{PlacedToks, SpellsPlacedAction};
ghost use Rattle.verilog_action_reader.specs.Reading.{actions, action};
ghost use Rattle.verilog_action_reader.specs.Taken.{not_else, TakesAction};

/// Reading an action gives what the tokens in front spell, of at most this depth; and what they spell is read, where an action that
/// could still take an `else` isn't followed by one.
pub fn actions_are_read()
    ensures found { (n : ℕ) (ts : PlacedToks) (x : PlacedActions × PlacedToks) → actions (action n ts) ≡ Some x → TakesAction n [] ts x }
    ensures only { (closed : Bool) (n : ℕ) (ts rest : PlacedToks) (all : PlacedActions) → SpellsPlacedAction closed ts all → actions_depth (bare_actions all) ≤ n → (closed ≡ false → not_else rest ≡ true) → actions (action n (ts ++ rest)) ≡ Some (all, rest) }
{}
