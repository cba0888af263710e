// Dumps that were read.
use lisa_engine::Item;
use std::marker::Model;

/// A time, and the items that have another value from it on, by their places, each with its value. Contracts see the record of the
/// time and the list of the changes.
#[derive(Debug, Drop)]
pub struct VcdTime {
    pub time: u64,
    pub changes: Vec<(u32, u64)>,
}

impl Model for VcdTime {
    ghost use Rattle.vcd_trace.specs.Written.{Changed};

    ghost Value = { Changed };

    ghost view = { λ t. record { time = t.time; changes = t.changes.items } };
}

/// The items of a dump, and its times in their order. Contracts see the record of both lists.
#[derive(Debug, Drop)]
pub struct Vcd {
    pub items: Vec<Item>,
    pub times: Vec<VcdTime>,
}

impl Model for Vcd {
    ghost use Rattle.vcd_trace.specs.Written.{Dump};

    ghost Value = { Dump };

    ghost view = { λ v. record { items = v.items.items; times = v.times.items } };
}
