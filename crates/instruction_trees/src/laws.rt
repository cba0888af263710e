//! Laws on trees, forms and words, over any table of operations. Each is the contract of a function that does nothing.

ghost use Rattle.std.specs.Prelude.{◌≡◌, ℕ, Bool, List, length, map, ◌+◌, ◌<◌, ◌≤◌, ◌^◌, ◌↔◌};
ghost use Rattle.std.specs.List.{All};
ghost use Rattle.instruction_trees.specs.Bits.{Has, Covers, pattern};
ghost use Rattle.instruction_trees.specs.Trees.{Table, Tree, Item, Form, Fits, IsBelow, AnyValue, bits, form_bits, size, form, is_plain, tree_at, slice, coding, placed, In};
ghost use Rattle.instruction_trees.specs.Words.{word_of, IsWordOf, Overlap};
ghost use Rattle.instruction_trees.specs.Values.{values, owns, inners, filled, upto, sum_of, weigh, AreWithin, StandsBelow};
ghost use Rattle.instruction_trees.specs.Forms.{forms, height, Distinct, IsOnce, IsRanked, AreRankedBelow};

/// A word has one tree of a form at most, and one exactly where it has the form's literal bits.
pub fn words_have_one_tree_of_a_form()
    ensures some { (table : Table) (items : List Item) (f : Form) (w : ℕ) → Fits AnyValue table f items → IsWordOf table items f w ↔ Has w (form_bits table f items) }
    ensures only { (table : Table) (items : List Item) (t : Tree ℕ) (w : ℕ) → Fits IsBelow table t items → Has w (bits table t items) → t ≡ tree_at table w 0 (form t) items }
    ensures found { (table : Table) (items : List Item) (f : Form) (w : ℕ) → Fits AnyValue table f items → Has w (form_bits table f items) → Has w (bits table (tree_at table w 0 f items) items) }
    ensures fits { (table : Table) (items : List Item) (f : Form) (w : ℕ) → Fits AnyValue table f items → Fits IsBelow table (tree_at table w 0 f items) items }
    ensures form { (table : Table) (items : List Item) (f : Form) (w : ℕ) → Fits AnyValue table f items → form (tree_at table w 0 f items) ≡ f }
    ensures values { (table : Table) (items : List Item) (f : Form) (w : ℕ) → values (tree_at table w 0 f items) ≡ map (slice w) (values (placed table 0 f items)) }
{}

/// The word of a tree is had by it. It is the pattern of its form and the sum of its values at their places, both in preorder.
pub fn words_are_had()
    ensures has { (table : Table) (items : List Item) (t : Tree ℕ) → Has (word_of table t items) (bits table t items) }
    ensures below { (table : Table) (items : List Item) (t : Tree ℕ) → word_of table t items < 2 ^ size table t items }
    ensures sum { (table : Table) (items : List Item) (t : Tree ℕ) → Fits IsBelow table t items → word_of table t items ≡ pattern (form_bits table t items) + sum_of (weigh (values t) (values (placed table 0 t items))) }
{}

/// Two forms overlap exactly where one word has the literal bits of both.
pub fn overlaps_are_common_words()
    ensures { (table : Table) (items : List Item) (f g : Form) → Fits AnyValue table f items → Fits AnyValue table g items → Overlap table items f g ↔ ((w : ℕ) × Has w (form_bits table f items) × Has w (form_bits table g items)) }
{}

/// A form covers another one of its width exactly where each word of the other is one of its own. So the word of a tree is had by some tree of
/// each form that covers the tree's.
pub fn covered_words_are_had()
    ensures words { (table : Table) (items : List Item) (f g : Form) (w : ℕ) → Fits AnyValue table f items → Covers (form_bits table f items) (form_bits table g items) → IsWordOf table items g w → IsWordOf table items f w }
    ensures covers { (table : Table) (items : List Item) (f g : Form) → Fits AnyValue table f items → Fits AnyValue table g items → size table f items ≡ size table g items → ((w : ℕ) → IsWordOf table items g w → IsWordOf table items f w) → Covers (form_bits table f items) (form_bits table g items) }
    ensures tree { (table : Table) (items : List Item) (f : Form) (t : Tree ℕ) → Fits AnyValue table f items → Fits IsBelow table t items → Covers (form_bits table f items) (form_bits table t items) → IsWordOf table items f (word_of table t items) }
    ensures own { (table : Table) (items : List Item) (t : Tree ℕ) → Covers (form_bits table t items) (bits table t items) }
{}

/// A tree and its form have their bits, fields and operations at the same places.
pub fn trees_are_as_their_forms()
    ensures fits { (table : Table) (items : List Item) (t : Tree ℕ) → Fits IsBelow table t items → Fits AnyValue table (form t) items }
    ensures bits { (table : Table) (items : List Item) (t : Tree ℕ) → form_bits table (form t) items ≡ form_bits table t items }
    ensures size { (table : Table) (items : List Item) (t : Tree ℕ) → length (bits table t items) ≡ size table t items }
    ensures places { (table : Table) (items : List Item) (low : ℕ) (t : Tree ℕ) → placed table low (form t) items ≡ placed table low t items }
    ensures plain { (aliases : ℕ → Bool) (t : Tree ℕ) → is_plain aliases (form t) ≡ is_plain aliases t }
    ensures height { (t : Tree ℕ) → height (form t) ≡ height t }
{}

/// Fields stand inside the width, and values that fit are those within their fields.
pub fn fields_are_placed()
    ensures inside { (table : Table) (items : List Item) (t : Form) → All (StandsBelow (size table t items)) (values (placed table 0 t items)) }
    ensures within { (table : Table) (items : List Item) (t : Tree ℕ) → Fits IsBelow table t items → AreWithin (values t) (values (placed table 0 t items)) }
    ensures fits { (table : Table) (items : List Item) (t : Tree ℕ) → Fits AnyValue table t items → AreWithin (values t) (values (placed table 0 t items)) → Fits IsBelow table t items }
{}

/// Each form that fits is listed, what is listed fits, and nothing is listed twice.
pub fn forms_are_listed()
    ensures fit { (table : Table) (depth : ℕ) (items : List Item) (f : Form) → In f (forms depth table items) → Fits AnyValue table f items }
    ensures all { (table : Table) (depth : ℕ) (items : List Item) (f : Form) → Fits AnyValue table f items → height f ≤ depth → In f (forms depth table items) }
    ensures once { (table : Table) → ((k : ℕ) → IsOnce (coding table k)) → (depth : ℕ) (items : List Item) → IsOnce items → Distinct (forms depth table items) }
{}

/// Where operations have ranks that fall from an operation to its children's alternatives, no tree is higher than these ranks allow.
pub fn trees_are_low()
    ensures { (table : Table) (rank : ℕ → ℕ) → IsRanked table rank → (bound : ℕ) (items : List Item) → AreRankedBelow rank bound items → (f : Form) → Fits AnyValue table f items → height f ≤ bound }
{}

/// A tree is its form with its values in preorder, and each form with values is one tree.
pub fn trees_are_forms_with_values()
    ensures tree { (f : ℕ → ℕ) (t : Tree ℕ) → map f (upto 0 (owns t + inners t)) ≡ values t → filled f (form t) ≡ t }
    ensures form { (f : ℕ → ℕ) (t : Form) → form (filled f t) ≡ t }
    ensures values { (f : ℕ → ℕ) (t : Form) → values (filled f t) ≡ map f (upto 0 (owns t + inners t)) }
    ensures count { (t : Tree ℕ) → length (values t) ≡ owns t + inners t }
{}
