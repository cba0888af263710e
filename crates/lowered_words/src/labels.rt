//! What reads labels from a row.

ghost use Rattle.std.specs.Prelude.{◌≡◌, ℕ, ◌≤◌, ◌+◌, Some, None, OnOk, IfOk, option_map, find};
ghost use Rattle.step_pieces.specs.Pieces.{top};
ghost use Rattle.step_pieces.specs.Drafts.{piece_of};
ghost use Rattle.lisa_tree.specs.Same.{same_name};
ghost use Rattle.scene_paths.specs.lisa_meaning.Values.{field_kind};
ghost use Rattle.instruction_forms.specs.declared.form.Field as fields;
ghost use Rattle.lowered_values.specs.Code.{plain, made};
ghost use Rattle.lowered_time.specs.Code.{Adds};
ghost use Rattle.lowered_words.specs.Ways.{Way};
ghost use Rattle.lowered_words.specs.Labels.{cut_out, field_computed, label_computed};
ghost use Rattle.lowered_words.specs.Laws.{StandsInWord};
ghost use Rattle.lowered_words.specs.Kept.{field_at};
ghost use Rattle.lowered_words.specs.Code.{words_tree, IsAt};

use crate::way_at::WayAt;
use crate::words::Words;
use instruction_forms::Field;
use lisa_words::{Kind, Name, NoMemory, Word};
use lowered_values::{Formula, Source, keep};
use std::alloc::Global;
use step_pieces::{Draft, Leaf};
use step_program::{OneOp, StepExpr, TwoOp};

fn kind_of(signed: bool) -> Kind
    ensures { result ≡ field_kind signed }
{
    if signed { Kind::Signed } else { Kind::Unsigned }
}

// The first field of a label.
#[tactic(auto, using(scene_paths::proofs::Parted::find_next))]
fn field_named<'f>(fields: &'f [Field], name: &Name) -> Option<&'f Field>
    ensures { option_map (λ own. own.now) result ≡ find (λ own. same_name name.now own.label) fields.now }
{
    'each: for own in fields {
        if *name == own.label {
            return Some(own);
        }
    }
    None
}

// The bits of the word at a temp that stand at a field's place.
fn cut_out(alloc: Global, word: u32, field: &Field) -> Result<Formula, NoMemory>
    requires { StandsInWord 64 field.now }
    ensures { IfOk result (λ x. made x ≡ cut_out word field.now) }
{
    let temp = Box::new(alloc, StepExpr::Temp(word))?;
    let low = Word {
        bits: field.lsb as u64,
        width: 6,
    };
    let low = Box::new(alloc, StepExpr::Const(low))?;
    let shifted = Box::new(alloc, StepExpr::Two(TwoOp::Shr, temp, low))?;
    Ok(Formula {
        at: StepExpr::One(OneOp::Cut(field.width), shifted),
        kind: kind_of(field.signed),
        width: field.width,
    })
}

// A step that takes a field out of the word at a temp, where there is one.
fn take_field(
    alloc: Global,
    base: u32,
    field: Option<&Field>,
    draft: &mut Draft,
) -> Result<Source, NoMemory>
    requires { (f : fields.Field) → option_map (λ own. own.now) field ≡ Some f → StandsInWord 64 f }
    ensures draft { OnOk result (Adds (λ from. (field_computed base from (option_map (λ own. own.now) field.entry)).piece) draft.old draft.new) }
    ensures out { IfOk result (λ x. plain x ≡ (field_computed base (top 0 (piece_of draft.old)) (option_map (λ own. own.now) field.entry)).out) }
{
    match field {
        None => Ok(Source {
            at: Leaf::Const(Word { bits: 0, width: 1 }),
            kind: Kind::Unsigned,
            width: 1,
        }),
        Some(field) => {
            let formula = cut_out(alloc, base, field)?;
            keep(draft, formula)
        }
    }
}

impl<'a> Words<'a> {
    // The field of a label in the part of a way.
    fn field(&self, way: WayAt, name: &Name) -> Option<&'a Field>
        ensures { option_map (λ own. own.now) result ≡ field_at self.now.table.parts.items name.now way.place }
    {
        match way.place {
            None => None,
            Some(place) => {
                if place < self.table.parts.len() {
                    field_named(&self.table.parts[place].fields, name)
                } else {
                    None
                }
            }
        }
    }

    /// Puts the step behind a draft that takes a label of the part of a way out of the word of a row, into one temp. A label that the part
    /// has not is 0, and takes none. The only other answer is want of memory, or of numbers for temps.
    pub fn label(
        &self,
        alloc: Global,
        base: u32,
        way: WayAt,
        name: &Name,
        draft: &mut Draft,
    ) -> Result<Source, NoMemory>
        ensures draft { (w : Way) → IsAt (words_tree self.now) w way → OnOk result (Adds (λ from. (label_computed (words_tree self.now) base from w name.now).piece) draft.old draft.new) }
        ensures out { (w : Way) → IsAt (words_tree self.now) w way → IfOk result (λ x. plain x ≡ (label_computed (words_tree self.now) base (top 0 (piece_of draft.old)) w name.now).out) }
    {
        let field = self.field(way, name);
        take_field(alloc, base, field, draft)
    }
}
