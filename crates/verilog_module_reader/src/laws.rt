//! What the grammar of modules comes to.

ghost use Rattle.std.specs.Prelude.{◌≡◌, ℕ, List};
ghost use Rattle.verilog_text.specs.Lexing.{Lexes};
ghost use Rattle.verilog_places.specs.Spelling.{PlacedToks, SpellsPlacedModule};
ghost use Rattle.verilog_places.specs.Trees.{PlacedModuleTree};
ghost use Rattle.verilog_module_reader.specs.Answers.{PlainsFit};

/// Tokens spell one module at most, of whatever depth.
pub fn one_module()
    ensures { (ts : PlacedToks) (m others : PlacedModuleTree) → PlainsFit ts → SpellsPlacedModule ts m → SpellsPlacedModule ts others → m ≡ others }
{}

/// The numbers without a size in the tokens of a text are as small as is wanted here.
pub fn lexed_tokens_fit()
    ensures { (at : ℕ) (bytes : List ℕ) (ts : PlacedToks) → Lexes at bytes ts → PlainsFit ts }
{}
