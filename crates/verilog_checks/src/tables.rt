// Names and what they are declared as.
ghost use Rattle.std.specs.Prelude.{◌≡◌, List, ℕ, Some, map, option_map, take};
ghost use Rattle.verilog_text.specs.Conditions.{Clock, Input, Register, Store, Net, names_of, is_select, is_wrong as is_wrong_use};
ghost use Rattle.verilog_checks.specs.Views.{sort_by, declared_by, used_by, counted_use};
ghost use Rattle.verilog_checks.specs.Readings.{has, is_early as is_early_use, sort_in, is_against as is_against_use};

use crate::parts::{Declaration, Kind, NameUse, Way};
use lisa_words::Name;
use name_tables::NameSet;

// Whether the name is one of the first ones.
fn is_declared(names: &NameSet, name: &Name, before: usize) -> bool
    ensures { result ≡ has (take before names.now.keys.items) name.now }
{
    names.place(name) < before.min(names.len())
}

/// Whether no declaration before a use has its name.
pub fn is_early(names: &NameSet, found: &NameUse) -> bool
    ensures { result ≡ is_early_use names.now.keys.items (counted_use found.now) }
{
    !is_declared(names, found.name, found.before)
}

// What a name is declared as.
fn kind_of(names: &NameSet, declared: &[Declaration], name: &Name) -> Option<Kind>
    requires { names.now.keys.items ≡ names_of (map declared_by declared.now) }
    ensures { option_map sort_by result ≡ sort_in (map declared_by declared.now) name.now }
{
    match declared.get(names.place(name)) {
        Some(declaration) => Some(declaration.kind),
        None => None,
    }
}

// Whether these are the ends of bits of a width.
fn is_part(width: u32, high: u32, low: u32) -> bool
    ensures { result ≡ is_select width high low }
{
    low <= high && high < width
}

fn is_wrong_for_clock(way: Way) -> bool
    ensures { (name : List ℕ) → result ≡ is_wrong_use (Some Clock) (used_by name way) }
{
    match way {
        Way::Edge => false,
        Way::Read => true,
        Way::Select(_, _) => true,
        Way::Index => true,
        Way::Assign => true,
        Way::Start => true,
    }
}

fn is_wrong_for_array(way: Way) -> bool
    ensures { (name : List ℕ) (width depth : ℕ) → result ≡ is_wrong_use (Some (Store width depth)) (used_by name way) }
{
    match way {
        Way::Index => false,
        Way::Start => false,
        Way::Read => true,
        Way::Select(_, _) => true,
        Way::Assign => true,
        Way::Edge => true,
    }
}

fn is_wrong_for_register(width: u32, way: Way) -> bool
    ensures { (name : List ℕ) → result ≡ is_wrong_use (Some (Register width)) (used_by name way) }
{
    match way {
        Way::Read => false,
        Way::Select(high, low) => !is_part(width, high, low),
        Way::Assign => false,
        Way::Start => false,
        Way::Index => true,
        Way::Edge => true,
    }
}

// For an input and a wire.
fn is_wrong_for_value(width: u32, way: Way) -> bool
    ensures input { (name : List ℕ) → result ≡ is_wrong_use (Some (Input width)) (used_by name way) }
    ensures net { (name : List ℕ) → result ≡ is_wrong_use (Some (Net width)) (used_by name way) }
{
    match way {
        Way::Read => false,
        Way::Select(high, low) => !is_part(width, high, low),
        Way::Start => false,
        Way::Assign => true,
        Way::Index => true,
        Way::Edge => true,
    }
}

fn is_wrong(kind: Kind, way: Way) -> bool
    ensures { (name : List ℕ) → result ≡ is_wrong_use (Some (sort_by kind)) (used_by name way) }
{
    match kind {
        Kind::Clock => is_wrong_for_clock(way),
        Kind::Input(width) => is_wrong_for_value(width, way),
        Kind::Register(width) => is_wrong_for_register(width, way),
        Kind::Store(_, _) => is_wrong_for_array(way),
        Kind::Net(width) => is_wrong_for_value(width, way),
    }
}

/// Whether a name is used against its declaration.
pub fn is_against(names: &NameSet, declared: &[Declaration], found: &NameUse) -> bool
    requires { names.now.keys.items ≡ names_of (map declared_by declared.now) }
    ensures { result ≡ is_against_use (map declared_by declared.now) (counted_use found.now) }
{
    match kind_of(names, declared, found.name) {
        Some(kind) => is_wrong(kind, found.way),
        None => false,
    }
}
