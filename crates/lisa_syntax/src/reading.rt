//! Reading lines of a source.

ghost use Rattle.std.specs.Prelude.{◌≡◌, ◌<◌, ℕ, List, Some, IfOk, IfErr, length, map, slice_get};
ghost use Rattle.lisa_tree.specs.Descriptions.{DescriptionTree};
ghost use Rattle.instruction_trees.specs.Trees.{Tree};
ghost use Rattle.lisa_forms.specs.form_patterns.Filled.{IsInstruction};
ghost use Rattle.asm_source.specs.Plain.{token_tree};
ghost use Rattle.instruction_texts.specs.declared.shapes.Token.{Token};
ghost use Rattle.instruction_texts.specs.Lines.{plain_token};
ghost use Rattle.text_tables.specs.Shared.{shapes_at};
ghost use Rattle.lisa_syntax.specs.Orders.{IsNowhere, IsOrder, IsInOrder, number_count, order_at};
ghost use Rattle.lisa_syntax.specs.Lines.{all_shapes, all_orders, IsReading, IsLineFault};
ghost use Rattle.lisa_syntax.specs.Parts.{IsSyntaxOf};
ghost use Rattle.lisa_syntax.specs.Trees.{IsReadAs, HasText, instruction_text};
ghost use Rattle.lisa_syntax.specs.declared.reading.LineFault.TheVariants as faults;

use crate::syntax::Syntax;
use asm_source::LineToken;
use instruction_texts::Operand;
use lisa_words::NoMemory;
use std::alloc::Global;
use text_tables::Found;

/// What a line is: an instruction of this form.
#[derive(Debug, Drop)]
pub struct Matched<'a> {
    pub form: u32,
    /// What stands for each field of the form, in preorder.
    pub operands: Vec<Operand<'a>>,
}

/// Why a line is no instruction.
#[derive(Debug, PartialEq, Eq, Drop)]
pub enum LineFault {
    /// 1: no form has it among its texts.
    NoInstruction,
    /// 2: two or more forms have it. These are the first two.
    TwoInstructions { first: u32, second: u32 },
    /// Memory was wanted and not given.
    NoMemory,
}

impl From<NoMemory> for LineFault {
    ghost from_gives = { λ _ fault. fault ≡ faults.NoMemory };

    fn from(_error: NoMemory) -> LineFault {
        LineFault::NoMemory
    }
}

// The place of a field in the order of the text.
fn place_of(order: &[u32], field: usize) -> usize
    requires { IsNowhere order.now field → ⊥ }
    ensures { slice_get order.now result ≡ Some field }
{
    for place in 0..order.len() {
        if order[place] as usize == field {
            return place;
        }
    }
    0
}

// What stands in the order of the text, in preorder.
fn in_preorder<'a>(
    alloc: Global,
    order: &[u32],
    operands: &[Operand<'a>],
) -> Result<Vec<Operand<'a>>, NoMemory>
    requires order { IsOrder order.now }
    requires level { length operands.now ≡ length order.now }
    ensures { IfOk result (λ all. IsInOrder order.now all.items operands.now) }
{
    let mut all = Vec::new(alloc);
    for field in 0..order.len() {
        all.push(operands[place_of(order, field)])?;
    }
    Ok(all)
}

impl Syntax {
    // The instruction of a line that is of this form, whose operands stand in the order of the text.
    fn matched<'a>(&self, form: usize, operands: &[Operand<'a>]) -> Result<Matched<'a>, NoMemory>
        requires within { form < length self.now.table }
        requires level { length operands.now ≡ number_count (shapes_at self.now.table form) }
        ensures form { IfOk result (λ m. m.form ≡ form) }
        ensures operands { IfOk result (λ m. IsInOrder (order_at (map (λ v. v.items) self.now.orders.items) form) m.operands.items operands.now) }
    {
        let operands = in_preorder(self.alloc, &self.orders[form], operands)?;
        Ok(Matched {
            form: form as u32,
            operands,
        })
    }

    // Which form a line is of, by the pieces of the forms' texts.
    fn form_of_line<'a>(&self, line: &'a [LineToken]) -> Result<Matched<'a>, LineFault>
        ensures matched { IfOk result (IsReading self.now.table (map (λ v. v.items) self.now.orders.items) (map token_tree line.now)) }
        ensures fault { IfErr result (IsLineFault self.now.table (map token_tree line.now)) }
    {
        match self.table.read(self.alloc, line)? {
            Found::Nothing => Err(LineFault::NoInstruction),
            Found::One(form, operands) => Ok(self.matched(form, &operands)?),
            Found::Two(first, second) => Err(LineFault::TwoInstructions {
                first: first as u32,
                second: second as u32,
            }),
        }
    }

    /// Which form a line is of, where an `@` operand stands for any value of the number in its place. A line that no form matches is
    /// NoInstruction, and one that two or more match is TwoInstructions, which never comes for a line without `@`.
    pub fn read_line<'a>(&self, line: &'a [LineToken]) -> Result<Matched<'a>, LineFault>
        // The one form that matches, with an operand for each field.
        ensures matched { (d : DescriptionTree) → IsSyntaxOf d self.now → IfOk result (IsReading (all_shapes d) (all_orders d) (map token_tree line.now)) }

        // None matches, or more than one, or memory was wanted.
        ensures fault { (d : DescriptionTree) → IsSyntaxOf d self.now → IfErr result (IsLineFault (all_shapes d) (map token_tree line.now)) }

        // What a line without `@` is read as has the line as its text.
        ensures plain { (d : DescriptionTree) (ts : List Token) → IsSyntaxOf d self.now → map token_tree line.now ≡ map plain_token ts → IfOk result (HasText d ts) }

        // Such a line is never that of two forms.
        ensures single { (d : DescriptionTree) (ts : List Token) → IsSyntaxOf d self.now → map token_tree line.now ≡ map plain_token ts → (i j : ℕ) → IfErr result (λ f. f ≡ faults.TwoInstructions i j → ⊥) }

        // The text of an instruction is read as its form with its values.
        ensures again { (d : DescriptionTree) (k : ℕ) (vs : List ℕ) (t : Tree ℕ) → IsSyntaxOf d self.now → IsInstruction d k vs t → map token_tree line.now ≡ map plain_token (instruction_text d t) → IfOk result (IsReadAs k vs) × IfErr result (λ f. f ≡ faults.NoMemory) }
    {
        self.form_of_line(line)
    }
}
