//! Words from the values of fields, and the values of fields from words.

ghost use Rattle.std.specs.Prelude.{◌≡◌, ◌+◌, ◌*◌, ◌^◌, ◌<◌, ◌↔◌, ℕ, None, Some, true, IsTrue, length, map, slice_index_or};
ghost use Rattle.lisa_tree.specs.Descriptions.{DescriptionTree};
ghost use Rattle.lisa_tree.specs.Operations.{is_alias};
ghost use Rattle.instruction_trees.specs.Trees.{Tree, is_plain, slice};
ghost use Rattle.instruction_trees.specs.Values.{AreWithin, StandsBelow, sum_of, weigh};
ghost use Rattle.instruction_trees.specs.Words.{word_of};
ghost use Rattle.form_patterns.specs.coding_tables.Codings.{coding_table};
ghost use Rattle.form_patterns.specs.coding_tables.Instructions.{forms_of, instruction_items};
ghost use Rattle.pattern_tables.specs.Instructions.{form_at};
ghost use Rattle.pattern_tables.specs.Places.{pair_of};
ghost use Rattle.form_patterns.specs.Instructions.{field_places};
ghost use Rattle.form_patterns.specs.Filled.{AreValuesOf, IsInstruction};
ghost use Rattle.form_patterns.specs.Rows.{pairs_at};
ghost use Rattle.lisa_forms.specs.Rows.{pattern_at};
ghost use Rattle.lisa_forms.specs.Codings.{HasField, IsCodingOf, IsDecodedAs};
ghost use Rattle.lisa_forms.specs.Coverage.{IsUncoveredVerdict};

use crate::coding::Coding;
use form_patterns::are_values;
use pattern_tables::{Place, field};

// The value of a field at its place.
fn shifted(value: u64, place: Place) -> u64
    requires below { value < 2 ^ place.width }
    requires inside { StandsBelow 64 (pair_of place) }
    ensures { result ≡ value * 2 ^ place.lsb }
{
    if value == 0 { 0 } else { value << place.lsb }
}

// The value of the field that stands there, 0 where it has no bit.
fn value_at(place: Place, word: u64) -> u64
    requires { StandsBelow 64 (pair_of place) }
    ensures { result ≡ slice word (pair_of place) }
{
    if place.width == 0 {
        0
    } else {
        field(place, word)
    }
}

// The word with these literal bits, and these values at these places.
fn with_fields(pattern: u64, fields: &[u64], places: &[Place]) -> u64
    requires inside { (i : ℕ) → i < length (map pair_of places.now) → StandsBelow 64 (slice_index_or (map pair_of places.now) i (0, 0)) }
    requires within { AreWithin fields.now (map pair_of places.now) }
    requires fits { pattern + sum_of (weigh fields.now (map pair_of places.now)) < 2 ^ 64 }
    ensures { result ≡ pattern + sum_of (weigh fields.now (map pair_of places.now)) }
{
    let mut word = pattern;
    'fields: for i in 0..places.len() {
        word += shifted(fields[i], places[i]);
    }
    word
}

impl Coding {
    /// Whether there is a form of this number, and these are values for its fields: one for each, in preorder, with no more bits than the
    /// field has. It takes no memory.
    pub fn fits(&self, form: u32, fields: &[u64]) -> bool
        ensures { (d : DescriptionTree) → IsCodingOf d self.now → IsTrue result ↔ AreValuesOf d form fields.now }
    {
        are_values(&self.places, form, fields)
    }

    /// How many fields the form of this number has; 0 where there is no such form. It takes no memory.
    pub fn field_count(&self, form: u32) -> usize
        ensures { (d : DescriptionTree) → IsCodingOf d self.now → (i : ℕ) → i < result ↔ HasField d form i }
    {
        if (form as usize) < self.places.len() {
            self.places[form as usize].len()
        } else {
            0
        }
    }

    // The word of a form's literal bits and these values.
    fn word_with(&self, form: u32, fields: &[u64]) -> u64
        requires form { form < length self.now.patterns.items }
        requires within { AreWithin fields.now (pairs_at self.now.places.items form) }
        ensures { result ≡ pattern_at self.now.patterns.items form + sum_of (weigh fields.now (pairs_at self.now.places.items form)) }
    {
        let bits = self.patterns[form as usize];
        with_fields(bits.pattern, fields, &self.places[form as usize])
    }

    /// The word of an instruction of this form with these values, in preorder. Free bits are 0. It takes no memory.
    pub fn encode(&self, form: u32, fields: &[u64]) -> u64
        requires values { (d : DescriptionTree) × IsCodingOf d self.now × AreValuesOf d form fields.now }

        // It is the word of the form's tree with these values.
        ensures word { (d : DescriptionTree) → IsCodingOf d self.now → (t : Tree ℕ) → IsInstruction d form fields.now t → result ≡ word_of (coding_table d) t (instruction_items d) }

        // Its fields have these values.
        ensures fields { (d : DescriptionTree) → IsCodingOf d self.now → map (slice result) (field_places d (form_at (forms_of d) form)) ≡ fields.now }

        // Where the tree is plain, its word is decoded as the form.
        ensures decoded { (d : DescriptionTree) → IsCodingOf d self.now → (t : Tree ℕ) → IsInstruction d form fields.now t → is_plain (is_alias d) t ≡ true → IsDecodedAs d result (Some form) }

        // Where each alias is covered, the word of an alias is decoded too.
        ensures covered { (d : DescriptionTree) → IsCodingOf d self.now → IsUncoveredVerdict d None → IsDecodedAs d result None → ⊥ }
    {
        self.word_with(form, fields)
    }

    /// The value of a field of this form, in preorder, in a word. It takes no memory.
    pub fn field(&self, form: u32, field: usize, word: u64) -> u64
        requires field { (d : DescriptionTree) × IsCodingOf d self.now × HasField d form field }
        ensures { (d : DescriptionTree) → IsCodingOf d self.now → result ≡ slice word (slice_index_or (field_places d (form_at (forms_of d) form)) field (0, 0)) }
    {
        value_at(self.places[form as usize][field], word)
    }
}
