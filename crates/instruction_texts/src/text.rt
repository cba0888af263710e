// A text that is being written.

/// The bytes so far, and whether they end in a run.
#[derive(Drop)]
pub struct Text {
    pub bytes: Vec<u8>,
    pub behind_run: bool,
}
