//! Values for the fields of forms.

ghost use Rattle.std.specs.Prelude.{◌<◌, ◌^◌, ◌↔◌, IsTrue, map};
ghost use Rattle.lisa_tree.specs.Descriptions.{DescriptionTree};
ghost use Rattle.instruction_trees.specs.Values.{AreWithin};
ghost use Rattle.pattern_tables.specs.Places.{pair_of};
ghost use Rattle.form_patterns.specs.Rows.{ArePlaces};
ghost use Rattle.form_patterns.specs.Filled.{AreValuesOf};

use pattern_tables::Place;

/// Whether a value has no bits but the lowest ones, which are so many.
pub fn is_within(width: u32, value: u64) -> bool
    ensures { IsTrue result ↔ value < 2 ^ width }
{
    width >= 64 || value >> width == 0
}

// Whether there is one value for each place, which has no more bits than its field.
fn are_within(values: &[u64], places: &[Place]) -> bool
    ensures { IsTrue result ↔ AreWithin values.now (map pair_of places.now) }
{
    if values.len() != places.len() {
        return false;
    }
    for field in 0..places.len() {
        if !is_within(places[field].width, values[field]) {
            return false;
        }
    }
    true
}

/// Whether there is a form of this number, and these are values for its fields, each within its field, where the places of all fields are
/// given. It takes no memory.
pub fn are_values(places: &[Vec<Place>], form: u32, values: &[u64]) -> bool
    ensures { (d : DescriptionTree) → ArePlaces d places.now → IsTrue result ↔ AreValuesOf d form values.now }
{
    (form as usize) < places.len() && are_within(values, &places[form as usize])
}
