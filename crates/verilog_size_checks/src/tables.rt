// Tables of the numbers of names.
ghost use Rattle.std.specs.Prelude.{ℕ, List, ◌≡◌, OnOk, map};
ghost use Rattle.std.specs.Option.{unwrap_or};
ghost use Rattle.name_tables.specs.TableViews.{value_of};
ghost use Rattle.verilog_places.specs.Trees.{placed_member};
ghost use Rattle.verilog_size_checks.specs.Sought.{first_of, named_value, member_value, input_value, Adds};

use lisa_words::Name;
use name_tables::put_value;
use std::alloc::AllocError;
use std::collections::BTreeMap;
use verilog_places::{PlacedInput, PlacedMember};

/// Which numbers a table has.
#[derive(Clone, Copy)]
pub enum Kind {
    /// The widths of `reg`s of one word.
    Regs,
    /// The widths of wires.
    Nets,
    /// The widths of the cells of arrays.
    Cells,
    /// The depths of arrays, and 0 for any other name.
    Depths,
}

/// Notes the number of a name that has none.
pub fn enter(table: &mut BTreeMap<Name, u32>, name: &Name, value: u32) -> Result<(), AllocError>
    ensures { OnOk result (Adds table.old table.new (named_value name.now value)) }
{
    if table.get(name).is_some() {
        return Ok(());
    }
    put_value(table, name, value)?;
    Ok(())
}

/// The number of a name, or 0.
pub fn number(table: &BTreeMap<Name, u32>, name: &Name) -> u32
    ensures { result ≡ unwrap_or (value_of table.now name.now) 0 }
{
    table.get(name).copied().unwrap_or(0)
}

// Notes what a member gives.
fn enter_member(
    table: &mut BTreeMap<Name, u32>,
    kind: Kind,
    member: &PlacedMember,
) -> Result<(), AllocError>
    ensures { OnOk result (Adds table.old table.new (λ n. member_value kind n (placed_member member.now))) }
{
    match member {
        PlacedMember::Reg(_, item) => match kind {
            Kind::Regs => enter(table, &item.name, item.width),
            Kind::Depths => enter(table, &item.name, 0),
            Kind::Nets | Kind::Cells => Ok(()),
        },
        PlacedMember::Array(_, array) => match kind {
            Kind::Cells => enter(table, &array.name, array.width),
            Kind::Depths => enter(table, &array.name, array.depth),
            Kind::Regs | Kind::Nets => Ok(()),
        },
        PlacedMember::Wire(_, item, _) => match kind {
            Kind::Nets => enter(table, &item.name, item.width),
            Kind::Depths => enter(table, &item.name, 0),
            Kind::Regs | Kind::Cells => Ok(()),
        },
        PlacedMember::Initial(_) => Ok(()),
        PlacedMember::Always(_, _) => Ok(()),
    }
}

/// Notes what the members give.
pub fn enter_members(
    table: &mut BTreeMap<Name, u32>,
    kind: Kind,
    members: &[PlacedMember],
) -> Result<(), AllocError>
    ensures { OnOk result (Adds table.old table.new (λ n. first_of (member_value kind n) (map placed_member members.now))) }
{
    'each: for member in members {
        enter_member(table, kind, member)?;
    }
    Ok(())
}

/// Notes what the inputs give.
pub fn enter_inputs(
    table: &mut BTreeMap<Name, u32>,
    kind: Kind,
    inputs: &[PlacedInput],
) -> Result<(), AllocError>
    ensures { OnOk result (Adds table.old table.new (λ n. first_of (input_value kind n) inputs.now)) }
{
    'each: for input in inputs {
        let value = match kind {
            Kind::Depths => 0,
            Kind::Regs | Kind::Nets | Kind::Cells => input.item.width,
        };
        enter(table, &input.item.name, value)?;
    }
    Ok(())
}
