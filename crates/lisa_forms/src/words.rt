//! Words of instructions and their forms.

ghost use Rattle.std.specs.Prelude.{◌≡◌, ◌⊎◌, ◌<◌, ◌≤◌, ◌+◌, ◌^◌, ◌↔◌, None, Some, unwrap_or, IsTrue, IfOk, IfErr};
ghost use Rattle.lisa_tree.specs.declared.faults.DescFault.TheVariants as faults;
ghost use Rattle.lisa_tree.specs.Descriptions.{DescriptionTree};
ghost use Rattle.pattern_tables.specs.Probes.{probe_bound};
ghost use Rattle.form_patterns.specs.Instructions.{instruction_plain};
ghost use Rattle.lisa_forms.specs.Rows.{instruction_patterns};
ghost use Rattle.lisa_forms.specs.Codings.{IsCodingOf, IsDecodedAs};
ghost use Rattle.lisa_forms.specs.Coverage.{IsUncoveredVerdict};

use crate::coding::Coding;
use form_patterns::is_within;
use lisa_tree::DescFault;
use lisa_words::{Name, NoMemory};
use pattern_tables::Steps;
use std::alloc::Global;
use std::sync::ledger::Ledger;

impl Coding {
    // Whether a word is no wider than an instruction.
    fn is_narrow(&self, word: u64) -> bool
        ensures { IsTrue result ↔ word < 2 ^ unwrap_or self.now.width 0 }
    {
        is_within(self.width.unwrap_or(0), word)
    }

    /// The form of the plain instruction that has the word. There is none where the word is wider than an instruction. It takes no memory.
    ///
    /// A step is one look at a pattern.
    pub fn decode<L: Ledger>(&self, word: u64, steps: &mut Steps<L>) -> Option<u32>
        // Exactly one plain tree has the word, or none has.
        ensures form { (d : DescriptionTree) → IsCodingOf d self.now → IsDecodedAs d word result }

        // For each distinct mask of plain forms, one more than the binary digits of the number of plain forms with that mask.
        ensures cost { (d : DescriptionTree) → IsCodingOf d self.now → steps.new ≤ steps.old + probe_bound (instruction_patterns d) (instruction_plain d) }
    {
        if !self.is_narrow(word) {
            return None;
        }
        self.decoder.decode(word, steps)
    }

    /// The form of the plain instruction that has the word, where nobody counts the steps. It takes no memory.
    pub fn form_of(&self, word: u64) -> Option<u32>
        ensures { (d : DescriptionTree) → IsCodingOf d self.now → IsDecodedAs d word result }
    {
        if !self.is_narrow(word) {
            return None;
        }
        self.decoder.form_of(word)
    }

    /// Whether each alias is covered by a plain form. The fault names the first one that isn't.
    pub fn aliases(&self, alloc: Global) -> Result<(), DescFault>
        ensures covered { (d : DescriptionTree) → IsCodingOf d self.now → IfOk result (λ _. IsUncoveredVerdict d None) }
        ensures fault { (d : DescriptionTree) → IsCodingOf d self.now → IfErr result (λ f. (f ≡ faults.NoMemory) ⊎ IsUncoveredVerdict d (Some f)) }
    {
        match &self.uncovered {
            None => Ok(()),
            Some(name) => {
                let form = Name::from_bytes(alloc, name.as_bytes())?;
                Err(DescFault::NotAnAlias { form })
            }
        }
    }
}
