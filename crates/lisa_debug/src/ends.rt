// How a session over an input ends early.
use lisa_engine::TraceEnd;
use thiserror::Error;

/// Why a session over an input ended early.
#[derive(Clone, Copy, Debug, PartialEq, Eq, Error)]
pub enum SessionEnd {
    /// The input has more bytes than a session takes, and no `quit` among them.
    #[error("too long")]
    TooLong,
    /// The input failed.
    #[error("read fault")]
    ReadFault,
    /// The output failed.
    #[error("write fault")]
    WriteFault,
    /// Memory was wanted and not given.
    #[error("out of memory")]
    NoMemory,
}

impl From<TraceEnd> for SessionEnd {
    ghost use Rattle.std.specs.Prelude.{◌≡◌};
    ghost use Rattle.lisa_debug.specs.Ends.{session_end};

    ghost from_gives = { λ end made. made ≡ session_end end };

    fn from(end: TraceEnd) -> SessionEnd {
        match end {
            TraceEnd::WriteFault => SessionEnd::WriteFault,
            TraceEnd::NoMemory => SessionEnd::NoMemory,
        }
    }
}
