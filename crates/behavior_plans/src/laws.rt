//! What holds of runs.

ghost use Rattle.behavior_plans.specs.Holdings.{Holdings};
ghost use Rattle.behavior_plans.specs.Acts.{ActTrees};
ghost use Rattle.behavior_plans.specs.Laws.{ActsKeepTypes};

/// Statements leave the types of registers and the lengths of all tables as they are, and what was there as the edge began.
pub fn runs_keep_types()
    ensures { (all : ActTrees) (h : Holdings) → ActsKeepTypes all h }
{}
