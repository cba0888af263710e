//! What a module's clock is made of.
use lisa_engine::Image;
use verilog_text::Module;

/// A module and an image that are read.
#[derive(Debug, Drop)]
pub struct Parts {
    pub clocked: Module,
    pub image: Image,
}
