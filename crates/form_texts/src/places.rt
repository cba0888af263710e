//! Where the names of a syntax stand in the coding of their operation.

ghost use Rattle.std.specs.Prelude.{◌≡◌, length};
ghost use Rattle.lisa_tree.specs.Operations.{syntax_in, sections_at};
ghost use Rattle.instruction_forms.specs.Described.{items_at, labels};
ghost use Rattle.form_texts.specs.Syntaxes.{child_names, place_in};
ghost use Rattle.form_texts.specs.Written.{shown_items};

use instruction_forms::sections;
use lisa_tree::{CodingItem, CodingPart, Names, SyntaxItem, coding, syntax};
use lisa_words::Name;

/// How many operations there are.
pub(crate) fn operation_count<N: Names>(names: &N) -> usize
    ensures { result ≡ length (N.tree names.now).operations }
{
    names.description().operations.len()
}

/// The items of an operation's coding, none of a root.
pub(crate) fn coding_items<N: Names>(names: &N, operation: usize) -> &[CodingItem]
    ensures { result.now ≡ items_at (N.tree names.now) operation }
{
    match coding(sections(names, operation)) {
        Some(CodingPart::Items(items)) => items,
        _ => &[],
    }
}

/// The items of an operation's syntax, none without one.
pub(crate) fn syntax_items<N: Names>(names: &N, operation: usize) -> &[SyntaxItem]
    ensures { result.now ≡ shown_items (syntax_in (sections_at (N.tree names.now) operation)) }
{
    match syntax(sections(names, operation)) {
        Some(items) => items,
        None => &[],
    }
}

/// The place of a label's field among the fields of a coding; behind them all, where it has none of this name.
pub(crate) fn field_place(items: &[CodingItem], name: &Name) -> usize
    ensures { result ≡ place_in name.now (labels items.now) }
{
    let mut place = 0;
    for item in items {
        if let CodingItem::Field(label, _) = item {
            if name == label {
                return place;
            }
            place += 1;
        }
    }
    place
}

/// The place of a child among the children of a coding; behind them all, where it has none of this name.
pub(crate) fn child_place(items: &[CodingItem], name: &Name) -> usize
    ensures { result ≡ place_in name.now (child_names items.now) }
{
    let mut place = 0;
    for item in items {
        if let CodingItem::Child(child) = item {
            if name == child {
                return place;
            }
            place += 1;
        }
    }
    place
}
