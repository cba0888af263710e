//! The steps that close the boundaries as an edge ends.

ghost use Rattle.std.specs.Prelude.{◌≡◌, ◌<◌, ◌+◌, ◌∷◌, [], length, IfOk, OnOk};
ghost use Rattle.lisa_tree.specs.Resources.{stages};
ghost use Rattle.step_program.specs.Programs.{Const, Choose, ToItem, expr_tree};
ghost use Rattle.step_pieces.specs.Pieces.{always};
ghost use Rattle.step_pieces.specs.Drafts.{leaf_tree};
ghost use Rattle.lowered_time.specs.Pieces.{steps, given};
ghost use Rattle.lowered_time.specs.Code.{Adds};
ghost use Rattle.lowered_resources.specs.Places.{field_width};
ghost use Rattle.lowered_layouts.specs.Ends.{before_field, moved_field, next_field, field_end, boundary_ends, ends};
ghost use Rattle.lowered_layouts.specs.Laws.{held_temp, open_temp};
ghost use Rattle.lowered_layouts.specs.Code.{positions_tree};

use crate::positions::Positions;
use lisa_words::{NoMemory, Word};
use lowered_resources::{Placing, Told};
use lowered_time::{held_at, open_at};
use std::alloc::Global;
use step_pieces::{Draft, Leaf};
use step_program::{Step, StepExpr, Target};

// The first one where the test holds, and else the other one.
fn choose(alloc: Global, test: Leaf, this: StepExpr, other: StepExpr) -> Result<StepExpr, NoMemory>
    ensures { IfOk result (λ e. expr_tree e ≡ Choose (leaf_tree test) (expr_tree this) (expr_tree other)) }
{
    let test = Box::new(alloc, test.expression())?;
    let this = Box::new(alloc, this)?;
    let other = Box::new(alloc, other)?;
    Ok(StepExpr::Choose(test, this, other))
}

// An item gets a value.
fn give_item(item: u32, value: StepExpr, draft: &mut Draft) -> Result<(), NoMemory>
    ensures { OnOk result (Adds (steps (given always (ToItem item) (expr_tree value) ∷ [])) draft.old draft.new) }
{
    draft.push(Step {
        guard: StepExpr::Const(Word { bits: 1, width: 1 }),
        target: Target::Item(item),
        value,
    })
}

impl<'a> Positions<'a> {
    // What a field is where it has no bits.
    fn no_bits(&self, field: usize) -> Leaf
        ensures { leaf_tree result ≡ Const (field_width (positions_tree self.now) field) 0 }
    {
        Leaf::Const(Word {
            bits: 0,
            width: self.field_width(field),
        })
    }

    // What a field was in the boundary before.
    fn before_field(&self, boundary: u8, field: usize) -> Leaf
        ensures { leaf_tree result ≡ before_field (positions_tree self.now) boundary field }
    {
        match boundary {
            0 => self.no_bits(field),
            _ => Leaf::Before(self.field(usize::from(boundary - 1), field)),
        }
    }

    // What was written to a field, or what it was in the boundary before.
    fn moved_field(&self, alloc: Global, boundary: u8, field: usize) -> Result<StepExpr, NoMemory>
        ensures { IfOk result (λ e. expr_tree e ≡ moved_field (positions_tree self.now) boundary field) }
    {
        let written = self.temp(Told::Written(usize::from(boundary), field))?;
        let out = self.temp(Told::Out(usize::from(boundary), field))?;
        let out = Leaf::Temp(out).expression();
        let before = self.before_field(boundary, field).expression();
        choose(alloc, Leaf::Temp(written), out, before)
    }

    // What a field becomes.
    fn next_field(&self, alloc: Global, boundary: u8, field: usize) -> Result<StepExpr, NoMemory>
        requires { boundary + 1 < length (stages (positions_tree self.now)) }
        ensures { IfOk result (λ e. expr_tree e ≡ next_field (positions_tree self.now) held_temp open_temp boundary field) }
    {
        let moved = self.moved_field(alloc, boundary, field)?;
        let none = self.no_bits(field).expression();
        let open = Leaf::Temp(open_at(boundary + 1));
        let new = choose(alloc, open, moved, none)?;
        let item = self.field(usize::from(boundary), field);
        let still = Leaf::Before(item).expression();
        let held = Leaf::Temp(held_at(boundary + 2));
        choose(alloc, held, still, new)
    }

    // The step that ends a field of a boundary.
    fn end_field(
        &self,
        alloc: Global,
        boundary: u8,
        field: usize,
        draft: &mut Draft,
    ) -> Result<(), NoMemory>
        requires { boundary + 1 < length (stages (positions_tree self.now)) }
        ensures { OnOk result (Adds (steps (field_end (positions_tree self.now) held_temp open_temp boundary field ∷ [])) draft.old draft.new) }
    {
        let value = self.next_field(alloc, boundary, field)?;
        let item = self.field(usize::from(boundary), field);
        give_item(item, value, draft)
    }

    // The steps that end the fields of a boundary.
    fn end_boundary(&self, alloc: Global, boundary: u8, draft: &mut Draft) -> Result<(), NoMemory>
        requires { boundary + 1 < length (stages (positions_tree self.now)) }
        ensures { OnOk result (Adds (steps (boundary_ends (positions_tree self.now) held_temp open_temp boundary)) draft.old draft.new) }
    {
        for field in 0..self.fields {
            self.end_field(alloc, boundary, field, draft)?;
        }
        Ok(())
    }

    /// Puts the steps behind a draft that give the fields of boundaries what they are as the next edge begins. Which levels are held and
    /// which are open stands in temps: `held_at` and `open_at` say where. The only other answer is want of memory, or of numbers for temps.
    pub fn end_boundaries(&self, alloc: Global, draft: &mut Draft) -> Result<(), NoMemory>
        ensures { OnOk result (Adds (ends (positions_tree self.now) held_temp open_temp) draft.old draft.new) }
    {
        for boundary in 0..self.stages.saturating_sub(1) {
            self.end_boundary(alloc, boundary, draft)?;
        }
        Ok(())
    }
}
