// Values by their places.
ghost use Rattle.std.specs.Prelude.{◌≡◌, slice_set};

/// Gives a place a value, if it is there.
pub fn set_value(values: &mut [u64], place: usize, value: u64)
    ensures { values.new ≡ slice_set values.old place value }
{
    if place < values.len() {
        values[place] = value;
    }
}
