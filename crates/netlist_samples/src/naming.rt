// Programs whose names are distinct.
ghost use Rattle.std.specs.Prelude.{◌≡◌, ◌≢◌, ◌++◌, ◌↔◌, IfOk, OnOk, IsTrue, AllPairs, Contains, map};
ghost use Rattle.step_program.specs.Programs.{program_tree};
ghost use Rattle.netlist_wires.specs.Tables.{program_names, HasDistinctNames};

use lisa_engine::{ArrayItem, Item};
use lisa_words::{Name, NoMemory};
use std::alloc::{AllocError, Global};
use step_program::StepProgram;

fn put_item_names(items: &[Item], names: &mut Vec<Name>) -> Result<(), AllocError>
    ensures { OnOk result (names.new.items ≡ names.old.items ++ map (λ item. item.name) items.now) }
{
    for item in items {
        names.push(item.name.clone()?)?;
    }
    Ok(())
}

fn put_array_names(arrays: &[ArrayItem], names: &mut Vec<Name>) -> Result<(), AllocError>
    ensures { OnOk result (names.new.items ≡ names.old.items ++ map (λ array. array.name) arrays.now) }
{
    for array in arrays {
        names.push(array.name.clone()?)?;
    }
    Ok(())
}

fn all_names(alloc: Global, program: &StepProgram) -> Result<Vec<Name>, AllocError>
    ensures { IfOk result (λ names. names.items ≡ program_names (program_tree program.now)) }
{
    let mut names = Vec::new(alloc);
    put_item_names(&program.items, &mut names)?;
    put_array_names(&program.arrays, &mut names)?;
    put_item_names(&program.pins, &mut names)?;
    Ok(names)
}

fn has(names: &[Name], name: &Name) -> bool
    ensures { IsTrue result ↔ Contains names.now name.now }
{
    names.contains(name)
}

// Whether no two of the names are the same.
fn are_apart(names: &[Name]) -> bool
    ensures apart { IsTrue result → AllPairs (λ a b. a ≢ b) names.now }
    ensures only { AllPairs (λ a b. a ≢ b) names.now → IsTrue result }
{
    match names {
        [] => true,
        [name, rest @ ..] => {
            if has(rest, name) {
                return false;
            }
            are_apart(rest)
        }
    }
}

/// Whether no two items, arrays or pins share a name.
pub fn named_apart(alloc: Global, program: &StepProgram) -> Result<bool, NoMemory>
    ensures { IfOk result (λ apart. IsTrue apart ↔ HasDistinctNames (program_tree program.now)) }
{
    let names = all_names(alloc, program)?;
    Ok(are_apart(&names))
}
