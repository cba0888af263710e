//! Items and their places.

ghost use Rattle.std.specs.Prelude.{◌≡◌, ℕ, Option, Some, length, slice_get};
ghost use Rattle.lisa_tree.specs.Descriptions.{DescriptionTree};
ghost use Rattle.lisa_engine.specs.declared.parts.Item.{Item};
ghost use Rattle.description_sizes.specs.Sizes.{items};
ghost use Rattle.instruction_forms.specs.Widths.{HasWidth};
ghost use Rattle.item_layouts.specs.declared.place.ItemPlace.{ItemPlace};
ghost use Rattle.item_layouts.specs.Layouts.{item_places};
ghost use Rattle.lisa_meaning.specs.States.{layout_of};
ghost use Rattle.scene_promises.specs.ItemsThere.{item_of, HasItem};

/// There is an item for each place, and none beside: the register, the field of a boundary, the word of a stage or the bit of an occurrence in
/// a stage that the place tells, with its name and its width.
pub fn items_stand_at_places()
    ensures count { (d : DescriptionTree) (width : Option ℕ) → HasWidth d width → length (items d width) ≡ length (item_places (layout_of d)) }
    ensures each { (d : DescriptionTree) (width : Option ℕ) → HasWidth d width → (i : ℕ) (p : ItemPlace) → slice_get (item_places (layout_of d)) i ≡ Some p → HasItem d width i p }
    ensures back { (d : DescriptionTree) (width : Option ℕ) → HasWidth d width → (i : ℕ) (x : Item) → slice_get (items d width) i ≡ Some x → (p : ItemPlace) × (slice_get (item_places (layout_of d)) i ≡ Some p) × (item_of d width p ≡ Some x) }
{}
