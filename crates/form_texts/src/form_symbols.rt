//! What a form writes.

ghost use Rattle.std.specs.Prelude.{◌≡◌, ◌+◌, IfOk};
ghost use Rattle.std.specs.List.{flat_map};
ghost use Rattle.lisa_tree.specs.Descriptions.{DescriptionTree};
ghost use Rattle.instruction_forms.specs.Trees.{form_tree};
ghost use Rattle.form_texts.specs.Strings.{symbols_of};
ghost use Rattle.form_texts.specs.Segments.{AreTemplates};
ghost use Rattle.form_texts.specs.Written.{inner_of, written_from, written};

use crate::assembling::{Source, assemble, number_behind};
use crate::segments::Templates;
use crate::symbols::Symbol;
use instruction_forms::Form;
use lisa_words::NoMemory;
use std::alloc::Global;

// What a form writes, and the number behind those of its children's fields.
#[derive(Drop)]
struct Part {
    symbols: Vec<Symbol>,
    end: u32,
}

// Writes a form, where its own fields are numbered from `first` and its children's from `inner`.
fn write(
    alloc: Global,
    templates: &Templates,
    form: &Form,
    first: u32,
    inner: u32,
) -> Result<Part, NoMemory>
    ensures symbols { IfOk result (λ part. (d : DescriptionTree) → AreTemplates d templates.now → flat_map (symbols_of templates.now.table.strings.items) part.symbols.items ≡ written_from d first inner (form_tree form.now)) }
    ensures end { IfOk result (λ part. part.end ≡ inner + inner_of (form_tree form.now)) }
{
    let mut parts = Vec::new(alloc);
    let mut end = inner;
    for child in &form.children {
        let behind = number_behind(end, child.fields.len())?;
        let made = write(alloc, templates, child, end, behind)?;
        end = made.end;
        parts.push(made.symbols)?;
    }
    let source = Source {
        first,
        fields: &form.fields,
        parts: &parts,
    };
    let segments = templates.of_operation(form.operation as usize);
    let symbols = assemble(alloc, &source, segments)?;
    Ok(Part { symbols, end })
}

/// The symbols of a whole form, whose fields are numbered in preorder.
pub(crate) fn form_symbols(
    alloc: Global,
    templates: &Templates,
    form: &Form,
) -> Result<Vec<Symbol>, NoMemory>
    ensures { IfOk result (λ symbols. (d : DescriptionTree) → AreTemplates d templates.now → flat_map (symbols_of templates.now.table.strings.items) symbols.items ≡ written d (form_tree form.now)) }
{
    let inner = number_behind(0, form.fields.len())?;
    let whole = write(alloc, templates, form, 0, inner)?;
    Ok(whole.symbols)
}
