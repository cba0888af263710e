// Which codes have a value at the first time.
ghost use Rattle.std.specs.Prelude.{◌≡◌, find, IfOk};
ghost use Rattle.std.specs.Option.{option_copied};
ghost use Rattle.vcd_trace.specs.Meaning.{blocks};
ghost use Rattle.vcd_trace.specs.VcdFaults.{first_changes, is_unset};
ghost use Rattle.vcd_trace.specs.CodeTables.{AreGiven};

use crate::parts::{Declaration, Event};
use std::alloc::{AllocError, Global};
use std::collections::BTreeSet;

// The codes that get a value up to the second time, or none where there is no time.
fn first_codes<'a>(alloc: Global, events: &[Event<'a>]) -> Result<BTreeSet<&'a [u8]>, AllocError>
    ensures { IfOk result (λ codes. AreGiven codes (first_changes (blocks events.now))) }
{
    let mut codes = BTreeSet::new(alloc);
    let mut timed = false;
    for event in events {
        match event {
            Event::Change(change) => {
                let _ = codes.insert(change.code)?;
            }
            Event::Time(_) => {
                if timed {
                    return Ok(codes);
                }
                timed = true;
            }
        }
    }
    if timed {
        Ok(codes)
    } else {
        Ok(BTreeSet::new(alloc))
    }
}

/// The codes that have a value at the first time.
#[derive(Drop)]
pub struct Firsts<'a, 'c> {
    events: &'c [Event<'a>],
    codes: BTreeSet<&'a [u8]>,
    ghost given: { AreGiven codes (first_changes (blocks events.now)) },
}

impl<'a, 'c> Firsts<'a, 'c> {
    fn new(alloc: Global, events: &'c [Event<'a>]) -> Result<Firsts<'a, 'c>, AllocError>
        ensures { IfOk result (λ firsts. firsts.events.now ≡ events.now) }
    {
        let codes = first_codes(alloc, events)?;
        Ok(Firsts { events, codes })
    }

    // The variable has no value at the first time.
    fn lacks(&self, variable: &Declaration<'a>) -> bool
        ensures { result ≡ is_unset (first_changes (blocks self.now.events.now)) variable.now }
    {
        !self.codes.contains(&variable.code)
    }
}

/// The first variable without a value at the first time.
pub(crate) fn find_unset<'a, 'b>(
    alloc: Global,
    variables: &'b [Declaration<'a>],
    events: &[Event<'a>],
) -> Result<Option<&'b Declaration<'a>>, AllocError>
    ensures { IfOk result (λ found. option_copied found ≡ find (is_unset (first_changes (blocks events.now))) variables.now) }
{
    let firsts = Firsts::new(alloc, events)?;
    for variable in variables {
        if firsts.lacks(variable) {
            return Ok(Some(variable));
        }
    }
    Ok(None)
}
