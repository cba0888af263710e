//! Where names stand first.

ghost use Rattle.std.specs.Prelude.{◌≡◌};
ghost use Rattle.name_tables.specs.TableViews.{value_of};

use lisa_words::Name;
use std::collections::BTreeMap;

// The place of a name.
pub(crate) fn place_of(table: &BTreeMap<Name, usize>, name: &Name) -> Option<usize>
    ensures { result ≡ value_of table.now name.now }
{
    table.get(name).copied()
}
