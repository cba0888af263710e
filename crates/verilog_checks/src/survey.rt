// The declarations and uses of a module, in order.
ghost use Rattle.std.specs.Prelude.{◌≡◌, ◌++◌, IfOk, OnOk, map, flat_map, length};
ghost use Rattle.verilog_text.specs.Conditions.{declares, head_declares, member_declares};
ghost use Rattle.verilog_text.specs.Trees.{setting_tree};
ghost use Rattle.verilog_places.specs.Trees.{bare_member, bare_module, placed_member, placed_module};
ghost use Rattle.verilog_checks.specs.Views.{declared_by, counted_use, counted_uses, told, told_by, Gives as GivesFirst};

use crate::parts::{Declaration, Event, Kind, NameUse};
use crate::uses::put_member;
use lisa_words::{Name, Word};
use std::alloc::{AllocError, Global};
use verilog_places::{PlacedMember, PlacedModule};

#[derive(Drop)]
pub struct Survey<'a> {
    pub declared: Vec<Declaration<'a>>,
    pub uses: Vec<NameUse<'a>>,
}

// The clock and the other inputs.
fn head<'a>(alloc: Global, module: &'a PlacedModule) -> Result<Vec<Declaration<'a>>, AllocError>
    ensures { IfOk result (λ out. map declared_by out.items ≡ head_declares (bare_module (placed_module «module».now))) }
{
    let mut out = Vec::new(alloc);
    out.push(Declaration {
        name: &module.clock,
        kind: Kind::Clock,
    })?;
    'each: for input in &module.inputs {
        out.push(Declaration {
            name: &input.item.name,
            kind: Kind::Input(input.item.width),
        })?;
    }
    Ok(out)
}

// What a member declares.
fn declare<'a>(out: &mut Vec<Declaration<'a>>, member: &'a PlacedMember) -> Result<(), AllocError>
    ensures { OnOk result (map declared_by out.new.items ≡ map declared_by out.old.items ++ member_declares (bare_member (placed_member member.now))) }
{
    match member {
        PlacedMember::Reg(_, item) => out.push(Declaration {
            name: &item.name,
            kind: Kind::Register(item.width),
        })?,
        PlacedMember::Array(_, array) => out.push(Declaration {
            name: &array.name,
            kind: Kind::Store(array.width, array.depth),
        })?,
        PlacedMember::Wire(_, item, _) => out.push(Declaration {
            name: &item.name,
            kind: Kind::Net(item.width),
        })?,
        PlacedMember::Initial(_) => {}
        PlacedMember::Always(_, _) => {}
    }
    Ok(())
}

/// All declarations and uses of a module.
pub fn survey_module<'a>(alloc: Global, module: &'a PlacedModule) -> Result<Survey<'a>, AllocError>
    ensures declared { IfOk result (λ s. map declared_by s.declared.items ≡ declares (bare_module (placed_module «module».now))) }
    ensures uses { IfOk result (λ s. map counted_use s.uses.items
        ≡ counted_uses (length (head_declares (bare_module (placed_module «module».now)))) (bare_module (placed_module «module».now)).members) }
{
    let mut declared = head(alloc, module)?;
    let mut uses = Vec::new(alloc);
    'each: for member in &module.members {
        put_member(&mut uses, declared.len(), member)?;
        declare(&mut declared, member)?;
    }
    Ok(Survey { declared, uses })
}

fn put_given<'a>(out: &mut Vec<Event<'a>>, settings: &'a [(Name, Word)]) -> Result<(), AllocError>
    ensures { OnOk result (map told out.new.items ≡ map told out.old.items ++ map (λ s. GivesFirst s.name) (map setting_tree settings.now)) }
{
    'each: for setting in settings {
        out.push(Event::Gives(&setting.0))?;
    }
    Ok(())
}

fn put_told<'a>(out: &mut Vec<Event<'a>>, member: &'a PlacedMember) -> Result<(), AllocError>
    ensures { OnOk result (map told out.new.items ≡ map told out.old.items ++ told_by (bare_member (placed_member member.now))) }
{
    match member {
        PlacedMember::Reg(_, item) => {
            out.push(Event::Declares(&item.name))?;
            Ok(())
        }
        PlacedMember::Initial(settings) => put_given(out, settings),
        PlacedMember::Array(_, _) => Ok(()),
        PlacedMember::Wire(_, _, _) => Ok(()),
        PlacedMember::Always(_, _) => Ok(()),
    }
}

/// The regs that are declared and the names that are given first values.
pub fn events<'a>(alloc: Global, module: &'a PlacedModule) -> Result<Vec<Event<'a>>, AllocError>
    ensures { IfOk result (λ out. map told out.items ≡ flat_map told_by (bare_module (placed_module «module».now)).members) }
{
    let mut out = Vec::new(alloc);
    'each: for member in &module.members {
        put_told(&mut out, member)?;
    }
    Ok(out)
}
