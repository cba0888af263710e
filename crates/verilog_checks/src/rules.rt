// The first names that break a rule.
ghost use Rattle.std.specs.Prelude.{◌≡◌, List, ℕ, [], IfOk, OnOk, None, map};
ghost use Rattle.name_tables.specs.Keys.{insert_all};
ghost use Rattle.verilog_text.specs.Conditions.{names_of, event_name};
ghost use Rattle.verilog_checks.specs.Views.{declared_by, counted_use, told};
ghost use Rattle.verilog_checks.specs.Readings.{again_in, first_use, is_early as is_early_use, is_against as is_against_use, event_after, noted, is_unset as is_unset_event, unset_in, reg_names, given_names};

use crate::parts::{Declaration, Event, NameUse};
use crate::tables::{is_against, is_early};
use lisa_words::{Name, NoMemory};
use name_tables::NameSet;
use std::alloc::{AllocError, Global};

/// The first name that is declared again; where there is none, all names are put into the set.
pub fn first_duplicate(
    names: &mut NameSet,
    declared: &[Declaration],
) -> Result<Option<Name>, NoMemory>
    requires { names.old.keys.items ≡ [] }
    ensures name { IfOk result (λ o. o ≡ again_in [] (names_of (map declared_by declared.now))) }
    ensures all { IfOk result (λ o. o ≡ None → names.new.keys.items ≡ names_of (map declared_by declared.now)) }
{
    'each: for declaration in declared {
        if names.contains(declaration.name) {
            return Ok(Some(declaration.name.clone()?));
        }
        names.insert(declaration.name)?;
    }
    Ok(None)
}

/// The first name that is used before it is declared.
pub fn first_undeclared(names: &NameSet, uses: &[NameUse]) -> Result<Option<Name>, NoMemory>
    ensures { IfOk result (λ o. o ≡ first_use (is_early_use names.now.keys.items) (map counted_use uses.now)) }
{
    'each: for found in uses {
        if is_early(names, found) {
            return Ok(Some(found.name.clone()?));
        }
    }
    Ok(None)
}

/// The first name that is used against its declaration.
pub fn first_wrong_use(
    names: &NameSet,
    declared: &[Declaration],
    uses: &[NameUse],
) -> Result<Option<Name>, NoMemory>
    requires { names.now.keys.items ≡ names_of (map declared_by declared.now) }
    ensures { IfOk result (λ o. o ≡ first_use (is_against_use (map declared_by declared.now)) (map counted_use uses.now)) }
{
    'each: for found in uses {
        if is_against(names, declared, found) {
            return Ok(Some(found.name.clone()?));
        }
    }
    Ok(None)
}

// The regs of one word.
fn regs_of(alloc: Global, events: &[Event]) -> Result<NameSet, AllocError>
    ensures { IfOk result (λ names. names.keys.items ≡ insert_all [] (reg_names (map told events.now))) }
{
    let mut names = NameSet::new(alloc);
    'each: for event in events {
        match *event {
            Event::Declares(name) => {
                names.insert(name)?;
            }
            Event::Gives(_) => {}
        }
    }
    Ok(names)
}

// The names that are given first values.
fn given_of(alloc: Global, events: &[Event]) -> Result<NameSet, AllocError>
    ensures { IfOk result (λ names. names.keys.items ≡ insert_all [] (given_names (map told events.now))) }
{
    let mut names = NameSet::new(alloc);
    'each: for event in events {
        match *event {
            Event::Declares(_) => {}
            Event::Gives(name) => {
                names.insert(name)?;
            }
        }
    }
    Ok(names)
}

// A `reg` that is given no first value, and a first value of what is no such `reg`, or of one that was given one earlier.
fn is_unset(regs: &NameSet, given: &NameSet, earlier: &NameSet, event: &Event) -> bool
    ensures { result ≡ is_unset_event regs.now.keys.items given.now.keys.items (event_after earlier.now.keys.items (told event.now)) }
{
    match *event {
        Event::Declares(name) => !given.contains(name),
        Event::Gives(name) => !regs.contains(name) || earlier.contains(name),
    }
}

fn name_of<'a>(event: &Event<'a>) -> &'a Name
    ensures { (earlier : List (List ℕ)) → result.now ≡ event_name (event_after earlier (told event.now)) }
{
    match *event {
        Event::Declares(name) => name,
        Event::Gives(name) => name,
    }
}

// Keeps the name that is given a first value.
fn note(earlier: &mut NameSet, event: &Event) -> Result<(), AllocError>
    ensures { OnOk result (earlier.new.keys.items ≡ noted earlier.old.keys.items (told event.now)) }
{
    match *event {
        Event::Declares(_) => {}
        Event::Gives(name) => {
            earlier.insert(name)?;
        }
    }
    Ok(())
}

fn first_unset_among(
    regs: &NameSet,
    given: &NameSet,
    earlier: &mut NameSet,
    events: &[Event],
) -> Result<Option<Name>, NoMemory>
    ensures { IfOk result (λ o. o ≡ unset_in regs.now.keys.items given.now.keys.items earlier.old.keys.items (map told events.now)) }
{
    'each: for event in events {
        if is_unset(regs, given, earlier, event) {
            return Ok(Some(name_of(event).clone()?));
        }
        note(earlier, event)?;
    }
    Ok(None)
}

/// The first name of a `reg` without a first value, or that is given a wrong one.
pub fn first_unset(alloc: Global, events: &[Event]) -> Result<Option<Name>, NoMemory>
    ensures { IfOk result (λ o. o ≡ unset_in (reg_names (map told events.now)) (given_names (map told events.now)) [] (map told events.now)) }
{
    let regs = regs_of(alloc, events)?;
    let given = given_of(alloc, events)?;
    let mut earlier = NameSet::new(alloc);
    first_unset_among(&regs, &given, &mut earlier, events)
}
