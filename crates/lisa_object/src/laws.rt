//! What the texts of objects and images tell apart.

ghost use Rattle.std.specs.Prelude.{◌≡◌};
ghost use Rattle.lisa_object.specs.declared.parts.Stamped.{Stamped};
ghost use Rattle.lisa_object.specs.Rules.{IsStamped};
ghost use Rattle.lisa_object.specs.Texts.{image_text};
ghost use Rattle.lisa_object.specs.Objects.{PlainObject};
ghost use Rattle.lisa_object.specs.ObjectRules.{IsObject};
ghost use Rattle.lisa_object.specs.ObjectText.{object_text};

/// A text is that of one object at most. A law: the function does nothing.
pub fn objects_are_unique()
    ensures { (o p : PlainObject) → IsObject o → IsObject p → object_text o ≡ object_text p → o ≡ p }
{}

/// A text is that of one image at most. A law: the function does nothing.
pub fn images_are_unique()
    ensures { (s t : Stamped) → IsStamped s → IsStamped t → image_text s ≡ image_text t → s ≡ t }
{}
