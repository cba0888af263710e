//! Indexes of arrays.
ghost use Rattle.std.specs.Prelude.{◌≡◌, ◌≤◌};
ghost use Rattle.lowered_resources.specs.Reading.{index_width};

/// How wide an index is that tells the cells of an array apart.
#[tactic(auto, using(crate::proofs::Coded::few_zeros))]
pub(crate) fn index_width(depth: u64) -> u32
    requires { 1 ≤ depth }
    ensures { result ≡ index_width depth }
{
    63 - depth.leading_zeros()
}
