//! Value change dumps of two-valued variables (IEEE 1364-2001, section 18): the text of a run, the reader of such texts, and the trace
//! of what was read.
#![tactic(auto)]

mod checks;
mod codes;
mod dumps;
mod faults;
mod firsts;
mod forms;
mod keywords;
mod laws;
mod left;
mod numbers;
mod parts;
mod places;
mod reading;
mod replay;
mod runs;
mod texts;
mod tracing;
mod values;
mod whole;
mod words;

pub use dumps::{Vcd, VcdTime};
pub use faults::VcdFault;
pub use laws::{dumps_are_unique, runs_are_read_again, traces_are_kept};
pub use runs::write_vcd;
pub use tracing::write_vcd_trace;
pub use whole::read_vcd;
