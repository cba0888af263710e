// The bits of the fields of forms.
ghost use Rattle.std.specs.Prelude.{◌≡◌, ◌++◌, IfOk, OnOk, map};
ghost use Rattle.lisa_tree.specs.Descriptions.{DescriptionTree};
ghost use Rattle.instruction_forms.specs.Trees.{form_tree};
ghost use Rattle.instruction_forms.specs.Described.{AreForms};
ghost use Rattle.form_patterns.specs.Instructions.{tree_fields};
ghost use Rattle.lisa_assembler.specs.Fields.{field_bits, AreFieldBits};

use instruction_forms::{Field, Form};
use lisa_words::NoMemory;
use std::alloc::Global;

/// The bits of a field.
#[derive(Clone, Copy)]
pub(crate) struct FieldBits {
    /// The lowest bit, counted in the whole instruction.
    pub(crate) lsb: u32,
    /// How many bits it has.
    pub(crate) width: u32,
    /// Whether its number is written with a sign.
    pub(crate) signed: bool,
}

// Adds the bits of fields.
fn add_fields(fields: &[Field], all: &mut Vec<FieldBits>) -> Result<(), NoMemory>
    ensures { OnOk result (all.new.items ≡ all.old.items ++ map field_bits fields.now) }
{
    for field in fields {
        all.push(FieldBits {
            lsb: field.lsb,
            width: field.width,
            signed: field.signed,
        })?;
    }
    Ok(())
}

// Adds the bits of a form's fields, in preorder.
fn add_form_fields(form: &Form, all: &mut Vec<FieldBits>) -> Result<(), NoMemory>
    ensures { OnOk result (all.new.items ≡ all.old.items ++ map field_bits (tree_fields (form_tree form.now))) }
{
    add_fields(&form.fields, all)?;
    for child in &form.children {
        add_form_fields(child, all)?;
    }
    Ok(())
}

// The bits of a form's fields, in preorder.
fn form_fields(alloc: Global, form: &Form) -> Result<Vec<FieldBits>, NoMemory>
    ensures { IfOk result (λ all. all.items ≡ map field_bits (tree_fields (form_tree form.now))) }
{
    let mut all = Vec::new(alloc);
    add_form_fields(form, &mut all)?;
    Ok(all)
}

/// The bits of the fields of all forms.
pub(crate) fn all_fields(alloc: Global, forms: &[Form]) -> Result<Vec<Vec<FieldBits>>, NoMemory>
    ensures { (d : DescriptionTree) → AreForms d forms.now → IfOk result (λ rows. AreFieldBits d (map (λ row. row.items) rows.items)) }
{
    let mut rows = Vec::new(alloc);
    for form in forms {
        let row = form_fields(alloc, form)?;
        rows.push(row)?;
    }
    Ok(rows)
}
