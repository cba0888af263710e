//! The operations in forms.

ghost use Rattle.std.specs.Prelude.{◌≡◌, cond, map, length};
ghost use Rattle.lisa_tree.specs.Descriptions.{DescriptionTree};
ghost use Rattle.instruction_forms.specs.Trees.{form_tree};
ghost use Rattle.access_counts.specs.Ledgers.{capped};
ghost use Rattle.lisa_forms.specs.Parts.{AreFormsOf};
ghost use Rattle.description_weight.specs.Weights.{tree_nodes, form_nodes};
ghost use Rattle.description_weight.specs.Sums.{nodes_where};

use lisa_forms::{Form, Forms};

// How many operations a form has.
fn tree_nodes(form: &Form) -> u64
    ensures { result ≡ capped (tree_nodes (form_tree form.now)) }
{
    let mut nodes: u64 = 1;
    for child in &form.children {
        nodes = nodes.saturating_add(tree_nodes(child));
    }
    nodes
}

// How many operations a form has; none where it isn't plain.
fn plain_nodes(form: &Form, plain: bool) -> u64
    ensures { result ≡ capped (cond plain (tree_nodes (form_tree form.now)) 0) }
{
    if plain {
        return tree_nodes(form);
    }
    0
}

// How many operations those of the forms have that are plain.
fn nodes_where(forms: &[Form], plain: &[bool]) -> u64
    requires { length plain.now ≡ length forms.now }
    ensures { result ≡ capped (nodes_where (map form_tree forms.now) plain.now) }
{
    let mut nodes: u64 = 0;
    for number in 0..forms.len() {
        nodes = nodes.saturating_add(plain_nodes(&forms[number], plain[number]));
    }
    nodes
}

/// How many operations all plain forms have.
pub(crate) fn form_nodes(forms: &Forms) -> u64
    ensures { (d : DescriptionTree) → AreFormsOf d forms.now → result ≡ capped (form_nodes d) }
{
    nodes_where(forms.forms(), forms.plain())
}
