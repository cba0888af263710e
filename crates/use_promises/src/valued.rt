//! What gives a declared name its value.

ghost use Rattle.std.specs.Prelude.{ℕ};
ghost use Rattle.lisa_tree.specs.declared.tokens.Shape.{Shape};
ghost use Rattle.lisa_tree.specs.Descriptions.{DescriptionTree};
ghost use Rattle.lisa_machine.specs.description_types.Tables.{Known, AreKinds};
ghost use Rattle.lisa_machine.specs.Verdicts.{IsAccepted};
ghost use Rattle.lisa_machine.specs.Values.{IsOfType};
ghost use Rattle.use_promises.specs.Valued.{HasValues};

/// In an accepted description a declared name with a type, as each that is read or assigned has, means operations that have an EXPRESSION, or
/// labels that have a field: the type is that of the first field's width and of the first number's kind.
pub fn values_are_given()
    ensures { (d : DescriptionTree) → IsAccepted d → (known : Known) → AreKinds d known → (i : ℕ) (shape : Shape) → IsOfType known.types d i shape → HasValues d i shape }
{}
