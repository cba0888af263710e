//! The texts of forms.

ghost use Rattle.std.specs.Prelude.{◌≡◌, [], IfOk};
ghost use Rattle.lisa_tree.specs.Descriptions.{DescriptionTree};
ghost use Rattle.instruction_forms.specs.Trees.{form_tree};
ghost use Rattle.instruction_forms.specs.Described.{AreForms};
ghost use Rattle.instruction_texts.specs.Symbols.{gather, shown_values, is_instruction_text};
ghost use Rattle.form_texts.specs.Instructions.{AreTexts, first_bad_text};
ghost use Rattle.text_tables.specs.Parts.{text_pieces};
ghost use Rattle.form_texts.specs.Segments.{AreTemplates};
ghost use Rattle.form_texts.specs.Strings.{AreOpened};
ghost use Rattle.form_texts.specs.Written.{written};

use crate::conditions::is_instruction_text;
use crate::form_symbols::form_symbols;
use crate::gathering::{order, parts};
use crate::segments::Templates;
use crate::strings::StringTable;
use instruction_forms::Form;
use lisa_tree::Names;
use lisa_words::NoMemory;
use std::alloc::Global;
use text_tables::{Part, Texts};

/// What forms look like in a source.
#[derive(Drop)]
pub struct FormTexts {
    /// The pieces of each text. Long strings that an operation writes are kept once.
    pub texts: Texts,
    /// The fields of each form, by their numbers in preorder, in the order of its text.
    pub orders: Vec<Vec<u32>>,
}

// What a form looks like, where some strings are kept.
#[derive(Drop)]
struct FormText {
    parts: Vec<Part>,
    order: Vec<u32>,
}

// The text of a form.
fn text(alloc: Global, templates: &Templates, form: &Form) -> Result<FormText, NoMemory>
    requires opened { AreOpened templates.now.table }
    ensures pieces { IfOk result (λ text. (d : DescriptionTree) → AreTemplates d templates.now → text_pieces templates.now.table.shared.items text.parts.items ≡ gather [] (written d (form_tree form.now))) }
    ensures order { IfOk result (λ text. (d : DescriptionTree) → AreTemplates d templates.now → text.order.items ≡ shown_values (written d (form_tree form.now))) }
{
    let symbols = form_symbols(alloc, templates, form)?;
    let parts = parts(alloc, &templates.table, &symbols)?;
    let order = order(alloc, &symbols)?;
    Ok(FormText { parts, order })
}

/// The texts of all forms, in order.
pub fn texts<N: Names>(alloc: Global, names: &N, forms: &[Form]) -> Result<FormTexts, NoMemory>
    requires forms { AreForms (N.tree names.now) forms.now }
    ensures { IfOk result (AreTexts (N.tree names.now)) }
{
    let templates = Templates::make(alloc, names)?;
    let mut texts = Vec::new(alloc);
    let mut orders = Vec::new(alloc);
    for form in forms {
        let FormText { parts, order } = text(alloc, &templates, form)?;
        texts.push(parts)?;
        orders.push(order)?;
    }
    let Templates { table, .. } = templates;
    let StringTable { shared, .. } = table;
    Ok(FormTexts {
        texts: Texts { shared, texts },
        orders,
    })
}

// Whether a form may have its text.
fn is_good(alloc: Global, templates: &Templates, form: &Form) -> Result<bool, NoMemory>
    requires opened { AreOpened templates.now.table }
    ensures { IfOk result (λ good. (d : DescriptionTree) → AreTemplates d templates.now → good ≡ is_instruction_text (written d (form_tree form.now))) }
{
    let symbols = form_symbols(alloc, templates, form)?;
    is_instruction_text(alloc, &templates.table, &symbols)
}

/// The first form whose text is empty, or has a first run that begins with `.`, or a number that isn't last in its run.
pub fn first_bad_text<N: Names>(
    alloc: Global,
    names: &N,
    forms: &[Form],
) -> Result<Option<usize>, NoMemory>
    requires forms { AreForms (N.tree names.now) forms.now }
    ensures { IfOk result (λ found. found ≡ first_bad_text (N.tree names.now)) }
{
    let templates = Templates::make(alloc, names)?;
    for (number, form) in forms.iter().enumerate() {
        if !is_good(alloc, &templates, form)? {
            return Ok(Some(number));
        }
    }
    Ok(None)
}
