//! What values rest on.

ghost use Rattle.std.specs.Prelude.{◌≡◌};
ghost use Rattle.lisa_tree.specs.Expressions.{ExprTree};
ghost use Rattle.typed_values.specs.Expressions.{Reader, value};
ghost use Rattle.scene_promises.specs.Agreeing.{AgreeOn};

/// The value of an expression rests on the names, elements and fields that stand in it, and on nothing else: readers that agree on these give
/// it the same value.
pub fn values_rest_on_names()
    ensures { (r s : Reader) (e : ExprTree) → AgreeOn r s e → value r e ≡ value s e }
{}
