//! Names with their places.

use crate::places::Places;
use lisa_words::Name;

/// A name with its places.
#[derive(Drop)]
pub(crate) struct Entry {
    pub(crate) name: Name,
    pub(crate) places: Places,
}
