//! What holds of listings. Each law is the contract of a function that does nothing.

ghost use Rattle.std.specs.Prelude.{◌≡◌, ℕ, List};
ghost use Rattle.lisa_tree.specs.Descriptions.{DescriptionTree};
ghost use Rattle.lisa_engine.specs.Memory.{Memory};
ghost use Rattle.lisa_syntax.specs.lisa_forms.declared.coding.Coding.{Coding};
ghost use Rattle.lisa_syntax.specs.lisa_forms.Codings.{IsCodingOf};
ghost use Rattle.lisa_disasm.specs.Listings.{IsListing};

/// An image has one listing.
pub fn listings_are_one()
    ensures some { (d : DescriptionTree) (c : Coding) (image : List Memory) → IsCodingOf d c → (text : List ℕ) × IsListing d image text }
    ensures one { (d : DescriptionTree) (c : Coding) (image : List Memory) (xs ys : List ℕ) → IsCodingOf d c → IsListing d image xs → IsListing d image ys → xs ≡ ys }
{}
