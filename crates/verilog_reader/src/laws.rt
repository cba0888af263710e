//! What the definition of the modules and faults of a text comes to.

ghost use Rattle.std.specs.Prelude.{◌≡◌};
ghost use Rattle.verilog_text.specs.declared.faults.VerilogFault.{VerilogFault};
ghost use Rattle.verilog_text.specs.Trees.{ModuleTree};
ghost use Rattle.verilog_text.specs.Spelling.{VSpells};
ghost use Rattle.verilog_text.specs.Faults.{VAccepts, VFault};
ghost use Rattle.verilog_reader.specs.Answers.{HasOutcome, IsSameFault};

/// Bytes spell a module that breaks no condition or have a first fault, and neither both nor two of them. A law: the function does
/// nothing.
pub fn modules_are_unique(bytes: &[u8])
    ensures some { HasOutcome bytes.now }
    ensures one { (m n : ModuleTree) → VSpells bytes.now m → VSpells bytes.now n → m ≡ n }
    ensures whole { (m : ModuleTree) (fault : VerilogFault) → VAccepts bytes.now m → VFault bytes.now fault → ⊥ }
    ensures first { (f g : VerilogFault) → VFault bytes.now f → VFault bytes.now g → IsSameFault f g }
{
    let _bytes = bytes;
}
