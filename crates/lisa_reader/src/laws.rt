//! What the definition of descriptions comes to.

ghost use Rattle.std.specs.Prelude.{◌≡◌};
ghost use Rattle.lisa_tree.specs.declared.faults.DescFault.{DescFault};
ghost use Rattle.lisa_tree.specs.Descriptions.{DescriptionTree};
ghost use Rattle.lisa_tree.specs.Texts.{SpellsText};
ghost use Rattle.lisa_reader.specs.Answers.{IsBroken, HasOutcome, IsSameFault};

/// Bytes spell one description or have a fault, and neither both nor two of them. A law: the function does nothing.
pub fn descriptions_are_unique(bytes: &[u8])
    ensures some { HasOutcome bytes.now }
    ensures one { (d e : DescriptionTree) → SpellsText bytes.now d → SpellsText bytes.now e → d ≡ e }
    ensures whole { (d : DescriptionTree) (fault : DescFault) → SpellsText bytes.now d → IsBroken bytes.now fault → ⊥ }
    ensures first { (f g : DescFault) → IsBroken bytes.now f → IsBroken bytes.now g → IsSameFault f g }
{
    let _bytes = bytes;
}
