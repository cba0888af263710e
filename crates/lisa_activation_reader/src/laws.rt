//! What the grammar of activations comes to.

ghost use Rattle.std.specs.Prelude.{◌≡◌, ◌≤◌, ◌++◌, ℕ, Some, true};
ghost use Rattle.lisa_tree.specs.Activations.{ActTrees, acts_depth};
ghost use Rattle.lisa_tree.specs.Grammar.{Toks};
ghost use Rattle.lisa_tree.specs.DescriptionGrammar.{SpellsActs};
ghost use Rattle.lisa_behav_reader.specs.Places.{closes_block};
ghost use Rattle.lisa_activation_reader.specs.Reading.{activation_of};

/// The items that reading an activation gives are what the tokens spell, and the only ones of that depth up to a `}`.
pub fn activations_are_read()
    ensures found { (n : ℕ) (ts : Toks) (x : ActTrees × Toks) → activation_of n ts ≡ Some x → (xs : Toks) × (ts ≡ xs ++ x.1) × SpellsActs xs x.0 × (acts_depth x.0 ≤ n) }
    ensures only { (n : ℕ) (ts rest : Toks) (all : ActTrees) → SpellsActs ts all → acts_depth all ≤ n → closes_block rest ≡ true → activation_of n (ts ++ rest) ≡ Some (all, rest) }
{}
