//! Memories as other tools write them: Intel HEX files, and the files that Verilog's `$readmemh` reads.
#![tactic(auto)]

mod faults;
mod formats;
mod hex_printer;
mod hex_reader;
mod laws;
mod memh_printer;
mod memh_reader;
mod memh_words;
mod pieces;
mod record_bytes;
mod records;

pub use faults::{HexFault, MemhFault};
pub use formats::MemoryFormat;
pub use hex_printer::print_hex;
pub use hex_reader::read_hex;
pub use laws::{hex_is_read_back, memh_is_read_back, values_hold_the_map};
pub use memh_printer::print_memh;
pub use memh_reader::read_memh;
