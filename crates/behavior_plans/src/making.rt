//! Stores that are made, and edges that begin.

ghost use Rattle.std.specs.Prelude.{◌≡◌, IfOk, None, false, length, map, replicate, []};
ghost use Rattle.typed_values.specs.Words.{typed_word, truth};
ghost use Rattle.behavior_plans.specs.Holdings.{first_holdings, begun};
ghost use Rattle.behavior_plans.specs.Stores.{holdings_of, touches_of};

use crate::store::Store;
use lisa_engine::Touch;
use lisa_words::NoMemory;
use std::alloc::Global;
use typed_values::Value;

fn blank_words(alloc: Global, count: usize) -> Result<Vec<Value>, NoMemory>
    ensures { IfOk result (λ words. map typed_word words.items ≡ replicate count (truth false)) }
{
    let mut words = Vec::new(alloc);
    words.resize(count, Value::truth(false))?;
    Ok(words)
}

fn no_outs(alloc: Global, count: usize) -> Result<Vec<Option<u64>>, NoMemory>
    ensures { IfOk result (λ outs. outs.items ≡ replicate count None) }
{
    let mut outs = Vec::new(alloc);
    outs.resize(count, None)?;
    Ok(outs)
}

fn no_marks(alloc: Global, count: usize) -> Result<Vec<bool>, NoMemory>
    ensures { IfOk result (λ marks. marks.items ≡ replicate count false) }
{
    let mut marks = Vec::new(alloc);
    marks.resize(count, false)?;
    Ok(marks)
}

fn touch_room(alloc: Global) -> Result<Vec<Touch>, NoMemory>
    ensures { IfOk result (λ touches. length touches.items ≡ 4096) }
{
    let mut touches = Vec::new(alloc);
    let nothing = Touch {
        array: 0,
        index: 0,
        before: 0,
    };
    touches.resize(4096, nothing)?;
    Ok(touches)
}

fn clear_outs(outs: &mut Vec<Option<u64>>)
    ensures { outs.new.items ≡ replicate (length outs.old.items) None }
{
    outs.fill(None);
}

fn clear_marks(marks: &mut Vec<bool>)
    ensures { marks.new.items ≡ replicate (length marks.old.items) false }
{
    marks.fill(false);
}

impl Store {
    /// A store with these registers, pins, cells and fields of boundaries, and so many slots and levels of stages. The slots and the registers as the edge began hold 0 of one bit.
    /// There is room for 4,096 touches, and none is noted.
    pub fn make(
        alloc: Global,
        registers: Vec<Value>,
        pins: Vec<Value>,
        cells: Vec<Vec<u64>>,
        slots: usize,
        fields: Vec<u64>,
        levels: usize,
    ) -> Result<Store, NoMemory>
        ensures holdings { IfOk result (λ store. holdings_of store ≡ first_holdings (map typed_word registers.items) (map typed_word pins.items) (map (λ row. row.items) cells.items) slots fields.items levels) }
        ensures touches { IfOk result (λ store. touches_of store ≡ []) }
        ensures room { IfOk result (λ store. length store.touched.items ≡ 4096) }
    {
        let kept = blank_words(alloc, registers.len())?;
        let slots = blank_words(alloc, slots)?;
        let touched = touch_room(alloc)?;
        let outs = no_outs(alloc, fields.len())?;
        let stalled = no_marks(alloc, levels)?;
        let flushed = no_marks(alloc, levels)?;
        Ok(Store {
            registers,
            kept,
            pins,
            slots,
            cells,
            decoded: false,
            fields,
            outs,
            stalled,
            flushed,
            touched,
            count: 0,
        })
    }

    /// An edge begins: the registers are kept as they stand, no field gets bits, no stage is held or dropped, and no touch is noted.
    pub fn begin(&mut self)
        requires { length self.old.kept.items ≡ length self.old.registers.items }
        ensures holdings { holdings_of self.new ≡ begun (holdings_of self.old) }
        ensures touches { touches_of self.new ≡ [] }
        ensures room { length self.new.touched.items ≡ length self.old.touched.items }
    {
        self.kept.copy_from_slice(&self.registers);
        clear_outs(&mut self.outs);
        clear_marks(&mut self.stalled);
        clear_marks(&mut self.flushed);
        self.count = 0;
    }
}
