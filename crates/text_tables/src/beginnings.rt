//! Forms by how their texts begin.

ghost use Rattle.std.specs.Prelude.{◌≡◌, ℕ, List, [], Option, Some, IfOk, OnOk, map, option_map, nat_eq};
ghost use Rattle.std.specs.Cmp.Lexicographic.{pointwise, slice_cmp};
ghost use Rattle.std.specs.Ordering.{is_eq, nat_cmp};
ghost use Rattle.asm_source.specs.Plain.{token_tree};
ghost use Rattle.instruction_texts.specs.Starts.{Beginning, start_of, line_starts};
ghost use Rattle.text_tables.specs.Beginnings.{with_if, kept_at, numbers_of, same, begun, items_of, Enters};

use asm_source::LineToken;
use instruction_texts::{Shape, Start, first_start, negative_start, starts_of};
use lisa_words::{Name, NoMemory};
use std::alloc::Global;
use std::collections::BTreeMap;

/// The numbers of forms, by the beginnings of their texts.
#[derive(Drop)]
pub(crate) struct Beginnings {
    signs: BTreeMap<u8, Vec<usize>>,
    words: BTreeMap<Name, Vec<usize>>,
    prefixes: BTreeMap<Name, Vec<usize>>,
    // Those of the forms without pieces.
    bare: Vec<usize>,
}

// Adds a form to those of a key.
fn enter<K: Ord + Drop>(
    alloc: Global,
    table: &mut BTreeMap<K, Vec<usize>>,
    key: K,
    form: usize,
) -> Result<(), NoMemory>
    ensures { OnOk result ((k : K) → kept_at K.cmp table.new k ≡ with_if (is_eq (K.cmp key k)) form (kept_at K.cmp table.old k)) }
{
    table.entry(key)?.or_insert(Vec::new(alloc)).push(form)?;
    Ok(())
}

// Adds a form to those of a sign.
#[tactic(auto, using(crate::proofs::Ordered::same_sign))]
fn enter_sign(
    alloc: Global,
    table: &mut BTreeMap<u8, Vec<usize>>,
    sign: u8,
    form: usize,
) -> Result<(), NoMemory>
    ensures { OnOk result ((c : ℕ) → kept_at nat_cmp table.new c ≡ with_if (nat_eq sign c) form (kept_at nat_cmp table.old c)) }
{
    enter(alloc, table, sign, form)
}

// Adds a form to those of a run.
#[tactic(auto, using(crate::proofs::Ordered::same_run))]
fn enter_run(
    alloc: Global,
    table: &mut BTreeMap<Name, Vec<usize>>,
    run: &[u8],
    form: usize,
) -> Result<(), NoMemory>
    ensures { OnOk result ((w : List ℕ) → kept_at (slice_cmp nat_cmp) table.new w ≡ with_if (pointwise nat_eq run.now w) form (kept_at (slice_cmp nat_cmp) table.old w)) }
{
    enter(alloc, table, Name::from_bytes(alloc, run)?, form)
}

fn forms_in(forms: Option<&Vec<usize>>) -> &[usize]
    ensures { result.now ≡ items_of (option_map (λ v. v.now) forms.entry) }
{
    match forms {
        Some(forms) => forms,
        None => &[],
    }
}

impl Beginnings {
    /// No forms.
    pub(crate) fn new(alloc: Global) -> Beginnings
        ensures { (b : Option Beginning) → numbers_of result b ≡ [] }
    {
        Beginnings {
            signs: BTreeMap::new(alloc),
            words: BTreeMap::new(alloc),
            prefixes: BTreeMap::new(alloc),
            bare: Vec::new(alloc),
        }
    }

    fn enter(
        &mut self,
        alloc: Global,
        start: Option<Start<'_>>,
        form: usize,
    ) -> Result<(), NoMemory>
        ensures { OnOk result ((b : Option Beginning) → numbers_of self.new b ≡ with_if (same (option_map start_of start.entry) b) form (numbers_of self.old b)) }
    {
        match start {
            None => self.bare.push(form)?,
            Some(Start::Sign(sign)) => enter_sign(alloc, &mut self.signs, sign, form)?,
            Some(Start::Word(run)) => enter_run(alloc, &mut self.words, run, form)?,
            Some(Start::Prefix(run)) => enter_run(alloc, &mut self.prefixes, run, form)?,
        }
        Ok(())
    }

    /// Adds a form by the beginnings of its texts.
    pub(crate) fn enter_form(
        &mut self,
        alloc: Global,
        shapes: &[Shape],
        form: usize,
    ) -> Result<(), NoMemory>
        ensures { OnOk result (Enters shapes.now form self.old self.new) }
    {
        self.enter(alloc, first_start(shapes), form)?;
        match negative_start(shapes) {
            None => Ok(()),
            negative => self.enter(alloc, negative, form),
        }
    }

    fn numbers(&self, alloc: Global, start: Start<'_>) -> Result<&[usize], NoMemory>
        ensures { IfOk result (λ forms. forms.now ≡ numbers_of self.now (Some (start_of start.entry))) }
    {
        let forms = match start {
            Start::Sign(sign) => self.signs.get(&sign),
            Start::Word(run) => self.words.get(&Name::from_bytes(alloc, run)?),
            Start::Prefix(run) => self.prefixes.get(&Name::from_bytes(alloc, run)?),
        };
        Ok(forms_in(forms))
    }

    /// The forms whose texts may begin as the line does, and those without pieces. A form may stand there twice.
    pub(crate) fn begun(&self, alloc: Global, line: &[LineToken]) -> Result<Vec<usize>, NoMemory>
        ensures { IfOk result (λ forms. forms.items ≡ begun self.now (line_starts (map token_tree line.now))) }
    {
        let mut forms = Vec::from_slice(alloc, &self.bare)?;
        'starts: for start in &starts_of(alloc, line)? {
            forms.extend_from_slice(self.numbers(alloc, *start)?)?;
        }
        Ok(forms)
    }
}
