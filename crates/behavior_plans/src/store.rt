//! What behaviours read and change.

use lisa_engine::Touch;
use typed_values::Value;

/// What behaviours read and change. All tables keep their lengths.
#[derive(Drop)]
pub struct Store {
    pub registers: Vec<Value>,
    /// The registers as the edge began.
    pub kept: Vec<Value>,
    pub pins: Vec<Value>,
    /// What locals hold.
    pub slots: Vec<Value>,
    /// Of each array.
    pub cells: Vec<Vec<u64>>,
    /// Whether the instruction's word has a form.
    pub decoded: bool,
    /// Of each field of each boundary, its bits as the edge began, and those that it got in this edge.
    pub fields: Vec<u64>,
    pub outs: Vec<Option<u64>>,
    /// By level, which stages are held, and in which of them what stands is dropped.
    pub stalled: Vec<bool>,
    pub flushed: Vec<bool>,
    /// Room for touches, and how many of them are noted.
    pub touched: Vec<Touch>,
    pub count: usize,
}
