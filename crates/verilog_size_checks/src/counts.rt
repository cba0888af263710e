// Counts and their limits.
ghost use Rattle.std.specs.Prelude.{ℕ, ◌≡◌, ◌≤◌, ◌<◌, IfOk, IfErr, None, map, length, sum_by};
ghost use Rattle.verilog_text.specs.Clocked.{regs, arrays};
ghost use Rattle.verilog_text.specs.Conditions.{AtMost, Depth, counted};
ghost use Rattle.verilog_places.specs.Trees.{placed_member, bare_members, placed_module, bare_module};
ghost use Rattle.verilog_size_checks.specs.Sought.{first_of, count_fault, TellsCount};

use crate::powers::exponent;
use lisa_words::Name;
use std::alloc::Global;
use verilog_places::{PlacedMember, PlacedModule};
use verilog_text::VerilogFault;

// The number of `reg`s of one word.
fn count_regs(members: &[PlacedMember]) -> u64
    ensures { result ≡ length (regs (bare_members (map placed_member members.now))) }
{
    let mut count = 0u64;
    'each: for member in members {
        match member {
            PlacedMember::Reg(_, _) => count += 1,
            PlacedMember::Array(_, _)
            | PlacedMember::Wire(_, _, _)
            | PlacedMember::Initial(_)
            | PlacedMember::Always(_, _) => {}
        }
    }
    count
}

// The number of arrays.
fn count_arrays(members: &[PlacedMember]) -> u64
    ensures { result ≡ length (arrays (bare_members (map placed_member members.now))) }
{
    let mut count = 0u64;
    'each: for member in members {
        match member {
            PlacedMember::Array(_, _) => count += 1,
            PlacedMember::Reg(_, _)
            | PlacedMember::Wire(_, _, _)
            | PlacedMember::Initial(_)
            | PlacedMember::Always(_, _) => {}
        }
    }
    count
}

// The number of cells of all arrays.
fn count_cells(members: &[PlacedMember]) -> u64
    requires { length (arrays (bare_members (map placed_member members.now))) ≤ 1024 }
    ensures { result ≡ sum_by (λ array. array.depth) (arrays (bare_members (map placed_member members.now))) }
{
    let mut count = 0u64;
    'each: for member in members {
        match member {
            PlacedMember::Array(_, array) => count += u64::from(array.depth),
            PlacedMember::Reg(_, _)
            | PlacedMember::Wire(_, _, _)
            | PlacedMember::Initial(_)
            | PlacedMember::Always(_, _) => {}
        }
    }
    count
}

// Checks a count.
fn check_count(alloc: Global, what: &[u8], count: u64, limit: u64) -> Result<(), VerilogFault>
    ensures right { IfOk result (λ _. count_fault (AtMost what.now count limit) ≡ None) }
    ensures within { IfOk result (λ _. count ≤ limit) }
    ensures wrong { IfErr result (TellsCount (count_fault (AtMost what.now count limit))) }
{
    if count > limit {
        return Err(VerilogFault::TooMany {
            what: Name::from_bytes(alloc, what)?,
            count,
            limit,
        });
    }
    Ok(())
}

// Checks the depth of an array.
fn check_depth(alloc: Global, depth: u32) -> Result<(), VerilogFault>
    ensures right { IfOk result (λ _. count_fault (Depth depth) ≡ None) }
    ensures wrong { IfErr result (TellsCount (count_fault (Depth depth))) }
{
    let within = match exponent(depth) {
        None => false,
        Some(k) => 1 <= k && k <= 20,
    };
    if within {
        return Ok(());
    }
    Err(VerilogFault::TooMany {
        what: Name::from_bytes(alloc, b"depth")?,
        count: u64::from(depth),
        limit: 1_048_576,
    })
}

// Checks the depths of all arrays.
fn check_depths(alloc: Global, members: &[PlacedMember]) -> Result<(), VerilogFault>
    ensures right { IfOk result (λ _. first_of count_fault (map (λ array. Depth array.depth) (arrays (bare_members (map placed_member members.now)))) ≡ None) }
    ensures wrong { IfErr result (TellsCount (first_of count_fault (map (λ array. Depth array.depth) (arrays (bare_members (map placed_member members.now)))))) }
{
    'each: for member in members {
        match member {
            PlacedMember::Array(_, array) => check_depth(alloc, array.depth)?,
            PlacedMember::Reg(_, _)
            | PlacedMember::Wire(_, _, _)
            | PlacedMember::Initial(_)
            | PlacedMember::Always(_, _) => {}
        }
    }
    Ok(())
}

/// Checks all that is counted.
pub fn check_counts(alloc: Global, m: &PlacedModule) -> Result<(), VerilogFault>
    ensures right { IfOk result (λ _. first_of count_fault (counted (bare_module (placed_module m.now))) ≡ None) }
    ensures wrong { IfErr result (TellsCount (first_of count_fault (counted (bare_module (placed_module m.now))))) }
{
    check_count(alloc, b"items", count_regs(&m.members), 8192)?;
    check_count(alloc, b"arrays", count_arrays(&m.members), 1024)?;
    check_count(alloc, b"cells", count_cells(&m.members), 4_194_304)?;
    check_count(alloc, b"pins", m.inputs.len() as u64, 64)?;
    check_depths(alloc, &m.members)?;
    Ok(())
}
