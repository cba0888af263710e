//! The commands on a memory of an image as other tools write it: an Intel HEX file or a file for Verilog's `$readmemh` from an image, and an image from such a file.
//!
//! `specs/Exports.antt` says what `tohex` and `tomem` give, and `specs/Imports.antt` what `fromhex` and `frommem` give.
#![tactic(auto)]

mod exporting;
mod importing;
mod laws;
mod memories;
mod printing;
mod reading;

pub use exporting::export_memory;
pub use importing::import_memory;
pub use laws::exports_are_imported;
