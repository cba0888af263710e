//! What the answers on frames say of instruction trees, over any table of operations. Each law is the contract of a function that does nothing.

ghost use Rattle.std.specs.Prelude.{◌≡◌, ℕ, Bool, List, None, Some};
ghost use Rattle.instruction_trees.specs.Trees.{Table, Tree, Item, Form, form, tree_at};
ghost use Rattle.instruction_trees.specs.Words.{Overlap, word_of};
ghost use Rattle.pattern_tables.specs.Overlaps.{AnswersOverlap, AnswersUncovered};
ghost use Rattle.pattern_tables.specs.Tables.{IsDecoded};
ghost use Rattle.pattern_tables.specs.Instructions.{form_at, frames_of, plain_of, AllFit, IsListed, IsPlainTree};
ghost use Rattle.pattern_tables.specs.declared.overlaps.Overlap.{Overlap as FirstOverlap};

/// A word that is decoded has a plain tree of the form that is answered, whose values are the fields that stand in the word; where no plain
/// forms overlap, it has no other one. A word that isn't decoded has no plain tree.
pub fn decoded_words_have_one_tree()
    ensures found { (table : Table) (items : List Item) (aliases : ℕ → Bool) (forms : List Form) (w k : ℕ) → AllFit table items forms → IsDecoded (frames_of table items forms) (plain_of aliases forms) w (Some k) → IsPlainTree table items aliases forms w (tree_at table w 0 (form_at forms k) items) }
    ensures form { (table : Table) (items : List Item) (aliases : ℕ → Bool) (forms : List Form) (w k : ℕ) → AllFit table items forms → IsDecoded (frames_of table items forms) (plain_of aliases forms) w (Some k) → form (tree_at table w 0 (form_at forms k) items) ≡ form_at forms k }
    ensures only { (table : Table) (items : List Item) (aliases : ℕ → Bool) (forms : List Form) (w k : ℕ) → AnswersOverlap (frames_of table items forms) (plain_of aliases forms) None → IsDecoded (frames_of table items forms) (plain_of aliases forms) w (Some k) → (t : Tree ℕ) → IsPlainTree table items aliases forms w t → t ≡ tree_at table w 0 (form_at forms k) items }
    ensures none { (table : Table) (items : List Item) (aliases : ℕ → Bool) (forms : List Form) (w : ℕ) → IsDecoded (frames_of table items forms) (plain_of aliases forms) w None → (t : Tree ℕ) → IsPlainTree table items aliases forms w t → ⊥ }
{}

/// Of the two forms of an overlap that is answered some trees have one word; where none is answered, a word has one plain tree at most.
pub fn overlaps_have_trees()
    ensures found { (table : Table) (items : List Item) (aliases : ℕ → Bool) (forms : List Form) (o : FirstOverlap) → AllFit table items forms → AnswersOverlap (frames_of table items forms) (plain_of aliases forms) (Some o) → Overlap table items (form_at forms o.first) (form_at forms o.second) }
    ensures none { (table : Table) (items : List Item) (aliases : ℕ → Bool) (forms : List Form) (w : ℕ) → AnswersOverlap (frames_of table items forms) (plain_of aliases forms) None → (t u : Tree ℕ) → IsPlainTree table items aliases forms w t → IsPlainTree table items aliases forms w u → t ≡ u }
{}

/// Where each alias is covered, the word of a tree is decoded, whether the tree is plain or not.
pub fn words_of_trees_are_decoded()
    ensures { (table : Table) (items : List Item) (aliases : ℕ → Bool) (forms : List Form) (t : Tree ℕ) → AnswersUncovered (frames_of table items forms) (plain_of aliases forms) None → IsListed table items forms t → IsDecoded (frames_of table items forms) (plain_of aliases forms) (word_of table t items) None → ⊥ }
{}
