//! The names of a description with what is noted of them.

ghost use Rattle.lisa_tree.specs.Descriptions.{description_tree};
ghost use Rattle.noted_names.specs.Memos.{AgreesWith};
ghost use Rattle.noted_names.specs.Naming.{AreNoted, EachIs, IsMemo, IsOwn, stage_places};

use crate::memo::Memo;
use description_tables::Tables;

/// The names of a description. Those that stand in an operation where it is run, and those that it
/// declares, are found there by few comparisons; the description's tables answer for all others.
#[derive(Drop)]
pub struct Noted<'a> {
    pub(crate) tables: Tables<'a>,
    pub(crate) memos: Vec<Memo>,
    pub(crate) stages: Memo,
    pub(crate) own: Vec<Option<usize>>,
    ghost of_memos: { EachIs (IsMemo (description_tree tables.globals.description.now)) memos.items },
    ghost of_noted: { AreNoted (description_tree tables.globals.description.now) memos.items },
    ghost of_stages: { AgreesWith (stage_places (description_tree tables.globals.description.now)) stages.table },
    ghost of_own: { EachIs (IsOwn (description_tree tables.globals.description.now)) own.items },
}
