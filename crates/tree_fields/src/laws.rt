//! Laws on fields in words, over any table of operations. Each is the contract of a function that does nothing.

ghost use Rattle.std.specs.Prelude.{◌≡◌, ◌+◌, ◌*◌, ◌^◌, ◌<◌, ℕ, List, ◌∷◌, [], Some, length, map, slice_get, slice_index_or};
ghost use Rattle.std.specs.List.{All, AllPairs};
ghost use Rattle.instruction_trees.specs.Bits.{Has, mask, pattern};
ghost use Rattle.instruction_trees.specs.Trees.{Table, Tree, Item, Form, Child, Done, Choose, Fits, IsBelow, bits, form, form_bits, coding, placed, relabel, slice};
ghost use Rattle.instruction_trees.specs.Values.{values, own_values};
ghost use Rattle.instruction_trees.specs.Words.{word_of};
ghost use Rattle.tree_fields.specs.Apart.{IsApart};
ghost use Rattle.tree_fields.specs.Placed.{places, IsClear, IsEmptied};
ghost use Rattle.tree_fields.specs.Children.{own_children, IsRead, IsReadChild};

/// No two fields of a form have a bit in common, and none has a bit in common with the form's literal bits.
pub fn fields_are_apart()
    ensures fields { (table : Table) (items : List Item) (f : Form) → AllPairs IsApart (places table f items) }
    ensures mask { (table : Table) (items : List Item) (f : Form) → All (IsClear (mask (form_bits table f items))) (places table f items) }
    ensures pattern { (table : Table) (items : List Item) (f : Form) → All (IsClear (pattern (form_bits table f items))) (places table f items) }
{}

/// The word of a tree is the one with 0 at a field, and the field's value at its place.
pub fn fields_add_up()
    ensures { (table : Table) (items : List Item) (i : ℕ) (t u : Tree ℕ) → Fits IsBelow table t items → IsEmptied i t u → i < length (values t) → word_of table t items ≡ word_of table u items + slice_index_or (values t) i 0 * 2 ^ (slice_index_or (places table t items) i (0, 0)).0 }
{}

/// Where values are mapped, the own values and the children of a tree are mapped alike.
pub fn mapped_trees_have_mapped_parts()
    ensures values { (f : ℕ → ℕ) (t : Tree ℕ) → own_values (relabel f t) ≡ map f (own_values t) }
    ensures children { (f : ℕ → ℕ) (t : Tree ℕ) → own_children (relabel f t) ≡ map (λ c. (c.0, relabel f c.1)) (own_children t) }
{}

/// The operation that an instruction is, in the tree that has a word, is read from the word, and so is each child of an operation that is.
/// The own values of an operation that is read are the slices of the word at its own fields.
pub fn parts_are_read_from_words()
    ensures whole { (table : Table) (ks : List ℕ) (word o : ℕ) (own : Tree ℕ) → Fits IsBelow table (Choose o own Done) (Child ks ∷ []) → Has word (bits table (Choose o own Done) (Child ks ∷ [])) → IsRead table word o 0 own }
    ensures child { (table : Table) (word o low i k : ℕ) (t own : Tree ℕ) → IsRead table word o low t → slice_get (own_children t) i ≡ Some (k, own) → IsReadChild table word o low i k t own }
    ensures values { (table : Table) (word o low : ℕ) (t : Tree ℕ) → IsRead table word o low t → own_values t ≡ map (slice word) (own_values (placed table low (form t) (coding table o))) }
{}
