// Names that are defined nowhere.
#![tactic(auto, using(crate::proofs::Steps::one_line, crate::proofs::Steps::one_term, crate::proofs::Steps::find_behind))]

ghost use Rattle.std.specs.Prelude.{◌≡◌, ◌||◌, not, List, ℕ, map, find, filter_map, flat_map, IfOk, option_copied};
ghost use Rattle.std.specs.List.{list_any};
ghost use Rattle.std.specs.Str.{bytes_eq};
ghost use Rattle.name_tables.specs.TableViews.{has_name};
ghost use Rattle.asm_source.specs.declared.parts.Term.{Term};
ghost use Rattle.lisa_object.specs.Objects.{object_line_tree, object_tree};
ghost use Rattle.lisa_object.specs.ObjectRules.{IsObject};
ghost use Rattle.placed_programs.specs.Entries.{entries_of, lines_of};
ghost use Rattle.object_links.specs.LinkFaults.{undefined_in};
ghost use Rattle.object_links.specs.LineNames.{line_uses};

use crate::names::own_names;
use asm_source::Term;
use lisa_object::{Object, ObjectLine};
use lisa_words::{Name, NoMemory};
use std::alloc::Global;
use std::collections::BTreeSet;

// Whether a name is neither the object's own nor one of the others'.
fn is_unknown(own: &BTreeSet<Name>, others: &BTreeSet<Name>, name: &Name) -> bool
    ensures { result ≡ not (has_name own.now name.now || has_name others.now name.now) }
{
    !(own.contains(name) || others.contains(name))
}

fn unknown_in_terms<'a>(
    own: &BTreeSet<Name>,
    others: &BTreeSet<Name>,
    terms: &'a [Term],
) -> Option<&'a Name>
    ensures { option_copied result ≡ find (λ n. not (has_name own.now n || has_name others.now n)) (filter_map (λ (t : Term). t.name) terms.now) }
{
    for term in terms {
        if let Some(name) = &term.name {
            if is_unknown(own, others, name) {
                return Some(name);
            }
        }
    }
    None
}

fn unknown_in_line<'a>(
    own: &BTreeSet<Name>,
    others: &BTreeSet<Name>,
    line: &'a ObjectLine,
) -> Option<&'a Name>
    ensures { option_copied result ≡ find (λ n. not (has_name own.now n || has_name others.now n)) (line_uses (object_line_tree line.now)) }
{
    match line {
        ObjectLine::Fix { sum, .. } => unknown_in_terms(own, others, &sum.terms),
        _ => None,
    }
}

// The first name in a sum of these lines that is neither the object's own nor one of the others'.
fn unknown_name<'a>(
    own: &BTreeSet<Name>,
    others: &BTreeSet<Name>,
    lines: &'a [ObjectLine],
) -> Option<&'a Name>
    ensures { option_copied result ≡ find (λ n. not (has_name own.now n || has_name others.now n)) (flat_map line_uses (map object_line_tree lines.now)) }
{
    for line in lines {
        if let Some(name) = unknown_in_line(own, others, line) {
            return Some(name);
        }
    }
    None
}

fn undefined_in_lines<'a>(
    alloc: Global,
    others: &BTreeSet<Name>,
    lines: &'a [ObjectLine],
) -> Result<Option<&'a Name>, NoMemory>
    requires { map object_line_tree lines.now ≡ lines_of (entries_of (map object_line_tree lines.now)) }
    ensures { (names : List (List ℕ)) → ((n : List ℕ) → has_name others.now n ≡ list_any (bytes_eq n) names) → IfOk result (λ found. option_copied found ≡ undefined_in names (entries_of (map object_line_tree lines.now))) }
{
    let own = own_names(alloc, lines)?;
    Ok(unknown_name(&own, others, lines))
}

/// The first name in a sum of the object that is neither its own nor one of the others'.
#[tactic(auto, using(placed_programs::proofs::Spelled::lines_are_entries))]
pub(crate) fn undefined_in<'a>(
    alloc: Global,
    others: &BTreeSet<Name>,
    object: &'a Object,
) -> Result<Option<&'a Name>, NoMemory>
    requires { IsObject (object_tree object.now) }
    ensures { (names : List (List ℕ)) → ((n : List ℕ) → has_name others.now n ≡ list_any (bytes_eq n) names) → IfOk result (λ found. option_copied found ≡ undefined_in names (entries_of (object_tree object.now).lines)) }
{
    undefined_in_lines(alloc, others, &object.lines)
}
