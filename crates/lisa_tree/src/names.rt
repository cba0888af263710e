//! Look-ups of a description's names.

ghost use Rattle.std.specs.Prelude.{◌≡◌, ◌<◌, length};
ghost use Rattle.lisa_tree.specs.Descriptions.{DescriptionTree, description_tree};
ghost use Rattle.lisa_tree.specs.Resources.{resource_at, stage_at, field_shape};
ghost use Rattle.lisa_tree.specs.Operations.{number_of, own_stage};
ghost use Rattle.std.specs.Prelude.{option_copied};
ghost use Rattle.lisa_tree.specs.Declarations.{choices, entries, entries_before, declared_at, what_at, owner_at, entry_name_at, alternatives_at, plain_at, above};
ghost use Rattle.lisa_tree.specs.Meanings.{meaning};

use crate::declared::{Meaning, What};
use crate::{Description, Shape};
use lisa_words::Name;

/// The names of a description, to be looked up. Nothing here takes memory, and each look-up takes the same time, however many names
/// there are.
pub trait Names {
    /// The description.
    ghost tree: { Self → DescriptionTree };

    fn description(&self) -> &Description
        ensures { description_tree result.now ≡ tree self.now };

    /// The number of the resource of this name.
    fn resource_at(&self, name: &Name) -> Option<usize>
        ensures { result ≡ resource_at (tree self.now) name.now };

    /// The number of a stage of the pipeline.
    fn stage_at(&self, name: &Name) -> Option<usize>
        ensures { result ≡ stage_at (tree self.now) name.now };

    /// The type of a field of the pipeline's boundaries.
    fn field_shape(&self, name: &Name) -> Option<Shape>
        ensures { result ≡ field_shape (tree self.now) name.now };

    /// The number of the operation of this name.
    fn number_of(&self, name: &Name) -> Option<usize>
        ensures { result ≡ number_of (tree self.now) name.now };

    /// The number of the stage that an operation has of its own.
    fn own_stage(&self, operation: usize) -> Option<usize>
        ensures { result ≡ own_stage (tree self.now) operation };

    /// The number of a name that an operation declares, among all declared names.
    fn declared_at(&self, operation: usize, name: &Name) -> Option<usize>
        ensures { result ≡ declared_at (tree self.now) operation name.now };

    /// What a name stands for in an operation, locals aside.
    fn meaning(&self, operation: usize, name: &Name) -> Meaning
        ensures { result ≡ meaning (tree self.now) operation name.now };

    /// How many names all operations declare.
    fn entry_count(&self) -> usize
        ensures { result ≡ length (entries (tree self.now)) };

    /// How many names the operations before one declare.
    fn entries_before(&self, operation: usize) -> usize
        ensures { result ≡ entries_before (tree self.now) operation };

    /// What a declared name is.
    fn what_at(&self, entry: usize) -> Option<What>
        ensures { result ≡ what_at (tree self.now) entry };

    /// The operation that declares a name.
    fn owner_at(&self, entry: usize) -> usize
        ensures { result ≡ owner_at (tree self.now) entry };

    /// The declared name itself.
    fn name_at(&self, entry: usize) -> Option<&Name>
        ensures { option_copied result ≡ entry_name_at (tree self.now) entry };

    /// How many groups and instances choose among operations.
    fn choice_count(&self) -> usize
        ensures { result ≡ length (choices (tree self.now)) };

    /// The operations that a choice has.
    fn alternatives_at(&self, choice: usize) -> &[usize]
        ensures { result.now ≡ alternatives_at (tree self.now) choice };

    /// Those of them that are no aliases.
    fn plain_at(&self, choice: usize) -> &[usize]
        ensures { result.now ≡ plain_at (tree self.now) choice };

    /// The operations, no aliases, that list this one in a group or an instance, each once.
    fn above(&self, operation: usize) -> &[usize]
        ensures { result.now ≡ above (tree self.now) operation };
}
