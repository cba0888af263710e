//! Laws on trees, forms and texts, over any table of operations and their syntax. Each is the contract of a function that does nothing.

ghost use Rattle.std.specs.Prelude.{◌≡◌, ◌↔◌, ℕ, List, [], true, map, slice_index_or};
ghost use Rattle.std.specs.List.{All};
ghost use Rattle.instruction_trees.specs.Trees.{Table, Form, Fits, AnyValue, coding};
ghost use Rattle.instruction_trees.specs.Values.{filled};
ghost use Rattle.instruction_texts.specs.declared.shapes.Shape.{Shape};
ghost use Rattle.instruction_texts.specs.declared.shapes.Token.{Token};
ghost use Rattle.instruction_texts.specs.Shapes.{Spells, IsText, IsSized, IsWide};
ghost use Rattle.instruction_texts.specs.Lines.{Plain, Value, Matches, plain_token};
ghost use Rattle.instruction_texts.specs.Written.{Holds};
ghost use Rattle.instruction_texts.specs.Symbols.{Element, symbols, is_clean, AreWide};
ghost use Rattle.instruction_texts.specs.Once.{IsWrittenOnce};
ghost use Rattle.instruction_texts.specs.Texts.{text, InRange, order, IsReadable, form_shape, form_symbols, Writes, Ambiguous};

/// Two trees of one form with one text are one tree.
pub fn trees_of_a_text_are_one()
    ensures { (table : Table) (syntax : List (List Element)) (k : ℕ) (t : Form) (f g : ℕ → ℕ) → IsReadable table syntax k t → InRange (symbols table syntax k (filled f t)) → InRange (symbols table syntax k (filled g t)) → text table syntax k (filled f t) ≡ text table syntax k (filled g t) → filled f t ≡ filled g t }
{}

/// The texts of a form's trees are those of its shape. So two forms are ambiguous exactly where their shapes have a text in common.
pub fn texts_are_those_of_shapes()
    ensures texts { (table : Table) (syntax : List (List Element)) (k : ℕ) (t : Form) (ts : List Token) → IsReadable table syntax k t → Writes table syntax k t ts ↔ IsText (form_shape table syntax k t) ts }
    ensures ambiguous { (table : Table) (syntax : List (List Element)) (j k : ℕ) (t u : Form) → IsReadable table syntax j t → IsReadable table syntax k u → Ambiguous table syntax j t k u ↔ ((ts : List Token) × IsText (form_shape table syntax j t) ts × IsText (form_shape table syntax k u) ts) }
{}

/// Where each operation writes each of its fields and children once, the texts of a form tell its trees apart.
pub fn forms_are_readable()
    ensures { (table : Table) (syntax : List (List Element)) → ((k : ℕ) → IsWrittenOnce (coding table k) (slice_index_or syntax k [])) → (k : ℕ) (t : Form) → Fits AnyValue table t (coding table k) → is_clean (form_symbols table syntax k t) ≡ true → AreWide (form_symbols table syntax k t) → IsReadable table syntax k t }
{}

/// A shape has one text with given values, and one list of values with a text; it has a text with each list of values that it holds.
pub fn texts_and_values_are_one()
    ensures values { (ss : List Shape) (vs ws : List ℕ) (ts : List Token) → Spells ss vs ts → Spells ss ws ts → vs ≡ ws }
    ensures text { (ss : List Shape) (vs : List ℕ) (ts us : List Token) → IsWide ss → Spells ss vs ts → Spells ss vs us → ts ≡ us }
    ensures some { (ss : List Shape) (vs : List ℕ) → All IsSized ss → Holds ss vs → (ts : List Token) × Spells ss vs ts }
    ensures held { (ss : List Shape) (vs : List ℕ) (ts : List Token) → All IsSized ss → Spells ss vs ts → Holds ss vs }
{}

/// A line without operands is matched by its text alone, with the text's values.
pub fn lines_without_operands_are_texts()
    ensures read { (ss : List Shape) (vs : List ℕ) (ts : List Token) → Spells ss vs ts → Matches ss (map Value vs) (map plain_token ts) }
    ensures only { (ss : List Shape) (gs : List Plain) (ts : List Token) → Matches ss gs (map plain_token ts) → (vs : List ℕ) × (gs ≡ map Value vs) × Spells ss vs ts }
{}

/// The text of a tree, read again, gives its values, in the order of the text.
pub fn texts_are_read_again()
    ensures { (table : Table) (syntax : List (List Element)) (k : ℕ) (t : Form) (f : ℕ → ℕ) → IsReadable table syntax k t → InRange (symbols table syntax k (filled f t)) → Matches (form_shape table syntax k t) (map Value (map f (order table syntax k t))) (map plain_token (text table syntax k (filled f t))) }
{}
