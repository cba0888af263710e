//! Names that are noted with their places.

ghost use Rattle.name_tables.specs.TableViews.{value_of};
ghost use Rattle.noted_names.specs.Memos.{Remembers};

use crate::entry::Entry;
use crate::places::Places;
use lisa_words::Name;
use std::collections::BTreeMap;

/// Different names, each noted with its places. A few slots stand before the table of all of them,
/// and a name is at one of the three that its length and its ends tell, if one of them was free.
#[derive(Drop)]
pub struct Memo {
    /// The names that are noted, in their order.
    pub table: BTreeMap<Name, Places>,
    pub(crate) slots: Vec<Option<Entry>>,
    ghost of_slots: { Remembers (value_of table) slots.items },
}
