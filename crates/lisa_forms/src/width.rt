//! How wide an instruction is.

ghost use Rattle.std.specs.Prelude.{◌≡◌, ◌↔◌, ℕ, None, false};
ghost use Rattle.lisa_tree.specs.Descriptions.{DescriptionTree};
ghost use Rattle.lisa_tree.specs.Operations.{is_root};
ghost use Rattle.form_patterns.specs.instruction_forms.Widths.{HasWidth};
ghost use Rattle.form_promises.specs.lisa_machine.Verdicts.{IsAccepted};
ghost use Rattle.lisa_forms.specs.Parts.{AreFormsOf};

use crate::forms::Forms;

impl Forms {
    /// The width of an instruction; none without a root.
    pub fn width(&self) -> Option<u32>
        ensures is { result ≡ self.now.width }
        ensures of_description { (d : DescriptionTree) → AreFormsOf d self.now → HasWidth d result }
        ensures none { (d : DescriptionTree) → IsAccepted d → AreFormsOf d self.now → (result ≡ None) ↔ ((o : ℕ) → is_root d o ≡ false) }
    {
        self.width
    }
}
