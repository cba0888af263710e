//! What an edge was seen to do.

/// What each stage did in an edge, one bit for each stage, the first one's at bit 0.
#[derive(Clone, Copy)]
pub struct Seen {
    /// An activation, or an item due in the first stage, ran in it as its own stage.
    pub ran: u8,
    pub held: u8,
    pub flushed: u8,
}
