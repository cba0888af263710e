//! The texts of a description's instructions.

ghost use Rattle.std.specs.Prelude.{◌≡◌, ◌≤◌, length, map};
ghost use Rattle.lisa_syntax.specs.Orders.{AreOrdersOf};

use std::alloc::Global;
use text_tables::TextTable;

/// The texts of a description's instructions, of which no two forms have one in common.
#[derive(Drop)]
pub struct Syntax {
    pub(crate) alloc: Global,
    pub(crate) table: TextTable,
    pub(crate) orders: Vec<Vec<u32>>,
    ghost level: { length orders.items ≡ length table },
    ghost few: { length table ≤ 1024 },
    ghost ordered: { AreOrdersOf table (map (λ v. v.items) orders.items) },
}
