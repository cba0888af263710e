//! What is kept of a description, and what it is in the description's own terms.

ghost use Rattle.std.specs.Prelude.{◌≡◌, ◌↔◌, ◌<◌, true, false, not, Some, length, slice_get, slice_index_or};
ghost use Rattle.lisa_tree.specs.Descriptions.{DescriptionTree};
ghost use Rattle.pattern_tables.specs.Patterns.{IsAlias};
ghost use Rattle.form_patterns.specs.coding_tables.Instructions.{form_count};
ghost use Rattle.form_patterns.specs.instruction_forms.Described.{AreForms};
ghost use Rattle.form_patterns.specs.instruction_forms.Trees.{form_tree};
ghost use Rattle.form_patterns.specs.Instructions.{instruction_plain};
ghost use Rattle.description_sizes.specs.activation_trees.Unfolding.{occurrences};
ghost use Rattle.description_sizes.specs.Sizes.{items};
ghost use Rattle.lisa_forms.specs.Choosing.{numbered_form};
ghost use Rattle.lisa_forms.specs.Parts.{AreFormsOf};

use crate::forms::Forms;
use description_sizes::Occurrence;
use form_patterns::Form;
use form_promises::Item;

impl Forms {
    /// How many forms there are, aliases among them. There is none without a root.
    pub fn count(&self) -> u32
        ensures is { result ≡ length self.now.forms.items }
        ensures of_description { (d : DescriptionTree) → AreFormsOf d self.now → result ≡ form_count d }
    {
        self.forms.len() as u32
    }

    /// The form of a number.
    pub fn form(&self, form: u32) -> &Form
        requires { form < length self.now.forms.items }
        ensures is { slice_get self.now.forms.items form ≡ Some result.now }
        ensures of_description { (d : DescriptionTree) → AreFormsOf d self.now → form_tree result.now ≡ numbered_form d form }
    {
        &self.forms[form as usize]
    }

    /// All forms, in the order of their numbers.
    pub fn forms(&self) -> &[Form]
        ensures is { result.now ≡ self.now.forms.items }
        ensures of_description { (d : DescriptionTree) → AreFormsOf d self.now → AreForms d result.now }
    {
        &self.forms
    }

    /// Whether some operation in a form is an alias.
    pub fn alias(&self, form: u32) -> bool
        requires { form < length self.now.forms.items }
        ensures is { result ≡ not (slice_index_or self.now.plain.items form false) }
        ensures of_description { (d : DescriptionTree) → AreFormsOf d self.now → (result ≡ true) ↔ IsAlias (instruction_plain d) form }
    {
        !self.plain[form as usize]
    }

    /// For each form whether no operation in it is an alias.
    pub fn plain(&self) -> &[bool]
        ensures is { result.now ≡ self.now.plain.items }
        ensures of_description { (d : DescriptionTree) → AreFormsOf d self.now → result.now ≡ instruction_plain d }
    {
        &self.plain
    }

    /// The occurrences, in the order of their numbers.
    pub fn occurrences(&self) -> &[Occurrence]
        ensures is { result.now ≡ self.now.occurrences.items }
        ensures of_description { (d : DescriptionTree) → AreFormsOf d self.now → result.now ≡ occurrences d }
    {
        &self.occurrences
    }

    /// The items: registers, boundary fields, words of stages, and activation bits.
    pub fn items(&self) -> &[Item]
        ensures is { result.now ≡ self.now.items.items }
        ensures of_description { (d : DescriptionTree) → AreFormsOf d self.now → result.now ≡ items d self.now.width }
    {
        &self.items
    }
}
