//! Names that were prepared.
ghost use Rattle.std.specs.Prelude.{◌≡◌, ℕ, List, OnOk, Some, None, cond, option_map};
ghost use Rattle.std.specs.Option.{option_or};
ghost use Rattle.name_tables.specs.TableViews.{value_of};
ghost use Rattle.lisa_tree.specs.Same.{same_name};
ghost use Rattle.lowered_values.specs.Code.{plain};
ghost use Rattle.lowered_resources.specs.Reading.{Known, absent};
ghost use Rattle.lowered_behaviors.specs.Code.{known_names};

use lisa_words::{Kind, Name, NoMemory, Word};
use lowered_resources::Declared;
use lowered_values::Source;
use name_tables::note_value;
use std::alloc::Global;
use std::collections::BTreeMap;
use step_pieces::Leaf;

/// What isn't there: 0, of one bit.
pub(crate) fn absent() -> Source
    ensures { plain result ≡ absent }
{
    Source {
        at: Leaf::Const(Word { bits: 0, width: 1 }),
        kind: Kind::Unsigned,
        width: 1,
    }
}

/// The operands of names that were prepared, each the first of its name, and whether the word decodes.
#[derive(Drop)]
pub struct KnownNames {
    sources: BTreeMap<Name, Source>,
    decoded: Source,
}

impl KnownNames {
    /// No names.
    pub(crate) fn new(alloc: Global, decoded: Source) -> KnownNames
        ensures names { (n : List ℕ) → value_of result.sources n ≡ None }
        ensures decoded { result.decoded ≡ decoded }
    {
        KnownNames {
            sources: BTreeMap::new(alloc),
            decoded,
        }
    }

    /// No name is declared, and no word decodes.
    pub fn none(alloc: Global) -> KnownNames
        ensures { known_names result ≡ record { named = λ n. absent; decoded = absent } }
    {
        KnownNames::new(alloc, absent())
    }

    /// Enters a name that isn't there yet.
    pub(crate) fn enter(&mut self, name: &Name, source: Source) -> Result<(), NoMemory>
        ensures names { OnOk result ((n : List ℕ) → value_of self.new.sources n ≡ option_or (value_of self.old.sources n) (cond (same_name n name.now) (Some source) None)) }
        ensures decoded { OnOk result (self.new.decoded ≡ self.old.decoded) }
    {
        note_value(&mut self.sources, name, source)?;
        Ok(())
    }
}

impl Declared for KnownNames {
    ghost known = { λ k. known_names k };

    fn named(&self, name: &Name) -> Source {
        match self.sources.get(name) {
            Some(source) => *source,
            None => absent(),
        }
    }

    fn decoded(&self) -> Source {
        self.decoded
    }
}
