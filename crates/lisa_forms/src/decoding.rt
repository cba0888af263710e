//! What decoding says of trees. Each law is the contract of a function that does nothing.

ghost use Rattle.std.specs.Prelude.{◌≡◌, ◌↔◌, ℕ, Option, None, true, MatchOption};
ghost use Rattle.lisa_tree.specs.Descriptions.{DescriptionTree};
ghost use Rattle.lisa_tree.specs.Operations.{is_alias};
ghost use Rattle.form_promises.specs.lisa_machine.Verdicts.{IsAccepted};
ghost use Rattle.instruction_trees.specs.Trees.{Tree, Fits, IsBelow, form, is_plain};
ghost use Rattle.instruction_trees.specs.Words.{word_of};
ghost use Rattle.form_patterns.specs.coding_tables.Codings.{coding_table};
ghost use Rattle.form_patterns.specs.coding_tables.Instructions.{instruction_items, forms_of};
ghost use Rattle.pattern_tables.specs.Instructions.{form_at};
ghost use Rattle.pattern_tables.specs.Overlaps.{IsOverlap};
ghost use Rattle.form_patterns.specs.Instructions.{instruction_frames, instruction_plain};
ghost use Rattle.lisa_forms.specs.declared.coding.Coding.{Coding};
ghost use Rattle.lisa_forms.specs.Codings.{IsCodingOf, IsDecodedAs, SharesWord};
ghost use Rattle.lisa_forms.specs.Coverage.{IsUncoveredVerdict};

/// The word of a plain instruction tree is decoded as the tree's form. Where each alias of an accepted description is covered, the word of
/// every instruction tree is decoded. No word is decoded as two forms.
pub fn words_are_decoded()
    ensures plain { (d : DescriptionTree) (t : Tree ℕ) (found : Option ℕ) → Fits IsBelow (coding_table d) t (instruction_items d) → is_plain (is_alias d) t ≡ true → IsDecodedAs d (word_of (coding_table d) t (instruction_items d)) found → MatchOption found ⊥ (λ k. form_at (forms_of d) k ≡ form t) }
    ensures covered { (d : DescriptionTree) (t : Tree ℕ) → IsAccepted d → IsUncoveredVerdict d None → Fits IsBelow (coding_table d) t (instruction_items d) → IsDecodedAs d (word_of (coding_table d) t (instruction_items d)) None → ⊥ }
    ensures one { (d : DescriptionTree) (c : Coding) (word : ℕ) (r s : Option ℕ) → IsCodingOf d c → IsDecodedAs d word r → IsDecodedAs d word s → r ≡ s }
{}

/// Two plain forms overlap by a word exactly where two plain trees, one of each, have it.
pub fn overlaps_are_of_trees()
    ensures { (d : DescriptionTree) (i j word : ℕ) → IsOverlap (instruction_frames d) (instruction_plain d) i j word ↔ SharesWord d i j word }
{}
