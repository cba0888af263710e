// The variables by their codes.
ghost use Rattle.std.specs.Prelude.{◌≡◌, ◌<◌, length, map, IfOk, IfSome};
ghost use Rattle.vcd_trace.specs.Meaning.{place_of, width_of};
ghost use Rattle.vcd_trace.specs.CodeTables.{AreSlots, slot_of};

use crate::parts::Declaration;
use std::alloc::{AllocError, Global};
use std::collections::BTreeMap;

/// The variables, with a table of their codes.
#[derive(Drop)]
pub struct Codes<'a, 'b> {
    pub variables: &'b [Declaration<'a>],
    slots: BTreeMap<&'a [u8], usize>,
    ghost found: { AreSlots slots variables.now },
}

// The table of the codes: from the last variable on, each takes its code from those behind it.
fn make_slots<'a>(
    alloc: Global,
    variables: &[Declaration<'a>],
) -> Result<BTreeMap<&'a [u8], usize>, AllocError>
    ensures { IfOk result (λ slots. AreSlots slots variables.now) }
{
    let mut slots = BTreeMap::new(alloc);
    let mut left = variables.len();
    while left > 0 {
        left -= 1;
        let variable = &variables[left];
        let _ = slots.insert(variable.code, left)?;
    }
    Ok(slots)
}

impl<'a, 'b> Codes<'a, 'b> {
    pub fn new(alloc: Global, variables: &'b [Declaration<'a>]) -> Result<Codes<'a, 'b>, AllocError>
        ensures { IfOk result (λ codes. codes.variables.now ≡ variables.now) }
    {
        let slots = make_slots(alloc, variables)?;
        Ok(Codes { variables, slots })
    }

    fn find(&self, code: &'a [u8]) -> Option<usize>
        ensures { result ≡ place_of self.now.variables.now code.now }
    {
        self.slots.get(&code).copied()
    }

    /// The place of the first variable with the code.
    pub fn place(&self, code: &'a [u8]) -> Option<usize>
        ensures place { result ≡ place_of self.now.variables.now code.now }
        ensures within { IfSome result (λ place. place < length self.now.variables.now) }
    {
        self.find(code)
    }

    /// For each variable the place of the first with its code.
    pub fn slots(&self, alloc: Global) -> Result<Vec<usize>, AllocError>
        ensures slots { IfOk result (λ slots. slots.items ≡ map (slot_of self.now.variables.now) self.now.variables.now) }
        ensures count { IfOk result (λ slots. length slots.items ≡ length self.now.variables.now) }
    {
        let mut slots = Vec::with_capacity(alloc, self.variables.len())?;
        for variable in self.variables {
            slots.push(self.place(variable.code).unwrap_or(0))?;
        }
        Ok(slots)
    }

    /// The width of the first variable with the code.
    pub fn width(&self, code: &'a [u8]) -> u64
        ensures { result ≡ width_of self.now.variables.now code.now }
    {
        match self.place(code) {
            Some(place) => {
                let variable = &self.variables[place];
                variable.width
            }
            None => 0,
        }
    }
}
