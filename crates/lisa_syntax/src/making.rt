//! Making the syntax of an accepted description.

ghost use Rattle.std.specs.Prelude.{◌≡◌, ◌⊎◌, ◌<◌, ◌≤◌, None, Some, IfOk, IfErr, length, map};
ghost use Rattle.std.specs.List.{All};
ghost use Rattle.lisa_tree.specs.declared.faults.DescFault.TheVariants as faults;
ghost use Rattle.lisa_tree.specs.Descriptions.{description_tree};
ghost use Rattle.instruction_texts.specs.Shapes.{IsSized};
ghost use Rattle.text_tables.specs.Parts.{all_pieces};
ghost use Rattle.lisa_forms.specs.Parts.{AreFormsOf};
ghost use Rattle.lisa_forms.specs.Verdicts.{form_name_at};
ghost use Rattle.lisa_syntax.specs.Texts.{IsAmbiguityVerdict};
ghost use Rattle.lisa_syntax.specs.Orders.{AreOrdersOf};
ghost use Rattle.lisa_syntax.specs.Parts.{IsSyntaxOf};

use crate::parts::text_parts;
use crate::syntax::Syntax;
use lisa_forms::{FormTexts, Forms, Machine, form_name};
use lisa_tree::DescFault;
use lisa_words::{Name, NoMemory};
use std::alloc::Global;
use text_tables::{Shared, TextTable, first_shared};

// What is told of two forms that share a text.
fn ambiguity(
    alloc: Global,
    machine: &Machine,
    forms: &Forms,
    shared: Shared,
) -> Result<DescFault, NoMemory>
    requires forms { AreFormsOf (description_tree machine.now) forms.now }
    requires first { shared.first < length forms.now.forms.items }
    requires second { shared.second < length forms.now.forms.items }
    ensures { IfOk result (λ fault. fault ≡ faults.Ambiguous (form_name_at (description_tree machine.now) shared.first) (form_name_at (description_tree machine.now) shared.second) shared.text.items) }
{
    let Shared {
        first,
        second,
        text,
    } = shared;
    Ok(DescFault::Ambiguous {
        first: form_name(alloc, machine, forms, first as u32)?,
        second: form_name(alloc, machine, forms, second as u32)?,
        text: Name::from_vec(text),
    })
}

// The syntax of these texts.
fn kept(alloc: Global, texts: FormTexts) -> Result<Syntax, NoMemory>
    requires sized { All (All IsSized) (all_pieces texts.texts) }
    requires level { length texts.orders.items ≡ length (all_pieces texts.texts) }
    requires few { length (all_pieces texts.texts) ≤ 1024 }
    requires ordered { AreOrdersOf (all_pieces texts.texts) (map (λ v. v.items) texts.orders.items) }
    ensures shapes { IfOk result (λ syntax. syntax.table ≡ all_pieces texts.texts) }
    ensures orders { IfOk result (λ syntax. syntax.orders ≡ texts.orders) }
{
    let FormTexts { texts, orders } = texts;
    let table = TextTable::make(alloc, texts)?;
    Ok(Syntax {
        alloc,
        table,
        orders,
    })
}

impl Syntax {
    /// The texts of an accepted description's forms. A refusal is the first two forms that have a text in common, with some text of both.
    pub fn make(alloc: Global, machine: &Machine, forms: &Forms) -> Result<Syntax, DescFault>
        requires forms { AreFormsOf (description_tree machine.now) forms.now }

        // It is the description's.
        ensures syntax { IfOk result (λ s. IsSyntaxOf (description_tree machine.now) s) }

        // No two forms have a text in common.
        ensures plain { IfOk result (λ _. IsAmbiguityVerdict (description_tree machine.now) None) }

        // A refusal is the first two that have, or for want of memory.
        ensures fault { IfErr result (λ f. (f ≡ faults.NoMemory) ⊎ IsAmbiguityVerdict (description_tree machine.now) (Some f)) }
    {
        machine.accepted();
        let texts = text_parts(alloc, machine.description(), forms.forms())?;
        match first_shared(alloc, &texts.texts)? {
            Some(shared) => Err(ambiguity(alloc, machine, forms, shared)?),
            None => Ok(kept(alloc, texts)?),
        }
    }
}
