// The rules on names, one after the other.
ghost use Rattle.std.specs.Prelude.{IfOk, IfErr};
ghost use Rattle.verilog_text.specs.Faults.{Holds7};
ghost use Rattle.verilog_places.specs.Trees.{bare_module, placed_module};
ghost use Rattle.verilog_checks.specs.Answers.{IsFirstBrokenName};

use crate::rules::{first_duplicate, first_undeclared, first_unset, first_wrong_use};
use crate::survey::{events, survey_module};
use name_tables::NameSet;
use std::alloc::Global;
use verilog_places::PlacedModule;
use verilog_text::VerilogFault;

/// Decides the rules on names: no two declarations share a name, each name is declared before it is used, and used as what it is
/// declared as, and each `reg` of one word, and nothing else, is given one first value. The answer is the first name that breaks the
/// first broken rule.
pub fn check_names(alloc: Global, module: &PlacedModule) -> Result<(), VerilogFault>
    // Nothing is broken.
    ensures holds { IfOk result (λ _. Holds7 (bare_module (placed_module «module».now))) }

    // What is answered is broken, and nothing before it.
    ensures broken { IfErr result (IsFirstBrokenName (bare_module (placed_module «module».now))) }
{
    let survey = survey_module(alloc, module)?;
    let mut names = NameSet::new(alloc);
    if let Some(name) = first_duplicate(&mut names, &survey.declared)? {
        return Err(VerilogFault::DuplicateName { name });
    }
    if let Some(name) = first_undeclared(&names, &survey.uses)? {
        return Err(VerilogFault::UsedBeforeDeclared { name });
    }
    if let Some(name) = first_wrong_use(&names, &survey.declared, &survey.uses)? {
        return Err(VerilogFault::WrongUse { name });
    }
    let events = events(alloc, module)?;
    if let Some(name) = first_unset(alloc, &events)? {
        return Err(VerilogFault::NoInitial { name });
    }
    Ok(())
}
