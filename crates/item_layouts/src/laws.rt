//! Laws on the places of items. Each is the contract of a function that does nothing.

ghost use Rattle.std.specs.Prelude.{◌≡◌, ◌↔◌, ℕ, Some, length, slice_get};
ghost use Rattle.item_layouts.specs.declared.place.ItemPlace.{ItemPlace};
ghost use Rattle.item_layouts.specs.Layouts.{Layout, ItemValues, item_places, item_values, value_at, place_of, HasPlace};

/// Each place that there is stands among the places, once, and `place_of` tells its number.
pub fn places_have_numbers()
    ensures listed { (l : Layout) (p : ItemPlace) → HasPlace l p ↔ ((i : ℕ) × (slice_get (item_places l) i ≡ Some p)) }
    ensures once { (l : Layout) (p : ItemPlace) (i j : ℕ) → slice_get (item_places l) i ≡ Some p → slice_get (item_places l) j ≡ Some p → i ≡ j }
    ensures found { (l : Layout) (p : ItemPlace) (i : ℕ) → (place_of l p ≡ Some i) ↔ (slice_get (item_places l) i ≡ Some p) }
{}

/// There is a value for each place, and it is that of the place. So where two lists of values are equal, so are the values of each place.
pub fn values_stand_at_places()
    ensures count { (l : Layout) (v : ItemValues) → length (item_values l v) ≡ length (item_places l) }
    ensures each { (l : Layout) (v : ItemValues) (p : ItemPlace) (i : ℕ) → place_of l p ≡ Some i → slice_get (item_values l v) i ≡ Some (value_at v p) }
    ensures same { (l : Layout) (v w : ItemValues) (p : ItemPlace) → item_values l v ≡ item_values l w → HasPlace l p → value_at v p ≡ value_at w p }
{}
