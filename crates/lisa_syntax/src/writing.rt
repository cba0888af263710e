//! Writing the texts of instructions.

ghost use Rattle.std.specs.Prelude.{◌≡◌, ℕ, List, IfOk, length, map};
ghost use Rattle.lisa_tree.specs.Descriptions.{DescriptionTree};
ghost use Rattle.instruction_trees.specs.Trees.{Tree};
ghost use Rattle.lisa_forms.specs.form_patterns.Filled.{AreValuesOf, IsInstruction};
ghost use Rattle.instruction_texts.specs.Written.{text_bytes};
ghost use Rattle.lisa_syntax.specs.Orders.{IsOrder};
ghost use Rattle.lisa_syntax.specs.Parts.{IsSyntaxOf};
ghost use Rattle.lisa_syntax.specs.Trees.{AreFields, instruction_text};

use crate::syntax::Syntax;
use lisa_words::NoMemory;
use std::alloc::Global;

// Values in preorder, put into the order of the text.
fn in_text_order(alloc: Global, order: &[u32], fields: &[u64]) -> Result<Vec<u64>, NoMemory>
    requires order { IsOrder order.now }
    requires level { length fields.now ≡ length order.now }
    ensures { IfOk result (λ shown. (f : ℕ → ℕ) → AreFields f fields.now → shown.items ≡ map f order.now) }
{
    let mut shown = Vec::new(alloc);
    for place in 0..order.len() {
        shown.push(fields[order[place] as usize])?;
    }
    Ok(shown)
}

impl Syntax {
    /// The canonical text of the instruction of a form with these values, in preorder. `Coding::fits` tells whether values are such.
    pub fn text_of(&self, form: u32, fields: &[u64]) -> Result<Vec<u8>, NoMemory>
        requires values { (d : DescriptionTree) × IsSyntaxOf d self.now × AreValuesOf d form fields.now }
        ensures text { IfOk result (λ bytes. (d : DescriptionTree) (t : Tree ℕ) → IsSyntaxOf d self.now → IsInstruction d form fields.now t → bytes.items ≡ text_bytes (instruction_text d t)) }
    {
        let values = in_text_order(self.alloc, &self.orders[form as usize], fields)?;
        self.table.text_of(self.alloc, form as usize, &values)
    }
}
