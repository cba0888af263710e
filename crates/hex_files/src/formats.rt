// The formats of the files.

/// How a memory is written for other tools.
#[derive(Clone, Copy, Debug)]
pub enum MemoryFormat {
    /// As an Intel HEX file.
    Hex,
    /// As a file that Verilog's `$readmemh` reads.
    Memh,
}
