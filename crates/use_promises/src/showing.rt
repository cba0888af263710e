//! What a machine shows.

ghost use Rattle.lisa_tree.specs.Descriptions.{DescriptionTree};
ghost use Rattle.lisa_machine.specs.Verdicts.{IsAccepted};
ghost use Rattle.use_promises.specs.Showing.{FitsShown};

/// The arrays of an accepted description have different names, widths from 1 to 64, and depths that are powers of two from 2 to 1,048,576. Its
/// pins have different names and such widths, and so have its registers.
pub fn machines_show()
    ensures { (d : DescriptionTree) → IsAccepted d → FitsShown d }
{}
