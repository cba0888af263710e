//! Laws of time. Each is the contract of a function that does nothing.

ghost use Rattle.std.specs.Prelude.{ℕ, List};
ghost use Rattle.pipeline_time.specs.Cores.{Core};
ghost use Rattle.pipeline_time.specs.Sound.{IsSound};
ghost use Rattle.pipeline_time.specs.Laws.{
  HeldAreFirst,
  UnchosenDoNothing,
  SameLevelRunsAtOnce,
  OtherLevelIsRecorded,
  OneBranchRuns,
  NumbersFindOccurrences,
  ControlsComeFirst,
  RunsOnce,
  DueAreDisjoint,
  OneStands,
  StandsBetween,
  SlotsAreWords,
  SlotsStandBehind,
  PastIsChosen,
  DueIsChosen,
  BitsStand,
  EdgeIsState,
  HardwareIsState,
};

/// What is run item by item: one that isn't chosen does nothing, one of its activator's level runs at once, one of another level is
/// recorded, and of an `if` one branch runs.
pub fn clause_steps<R, M>()
    ensures unchosen { (core : Core R M) → UnchosenDoNothing core }
    ensures same { (core : Core R M) → SameLevelRunsAtOnce core }
    ensures other { (core : Core R M) → OtherLevelIsRecorded core }
    ensures branch { (core : Core R M) → OneBranchRuns core }
{}

/// Each number below the count of occurrences finds one.
pub fn numbers_find_occurrences<R, M>()
    ensures { (core : Core R M) → IsSound core → NumbersFindOccurrences core }
{}

/// The held stages are the first ones.
pub fn held_are_first()
    ensures { (stalled : List ℕ) → HeldAreFirst stalled }
{}

/// Each stall and flush of a stage is issued before its turn.
pub fn controls_come_first<R, M>()
    ensures { (core : Core R M) → IsSound core → ControlsComeFirst core }
{}

/// No occurrence runs twice in an edge.
pub fn runs_once<R, M>()
    ensures { (core : Core R M) → IsSound core → RunsOnce core }
{}

/// Of what is due in one stage none is below another.
pub fn due_are_disjoint<R, M>()
    ensures { (core : Core R M) → IsSound core → DueAreDisjoint core }
{}

/// At most one activation of an occurrence stands in a stage, after its activator's stage and not after its own; and at most one slot.
pub fn one_stands<R, M>()
    ensures one { (core : Core R M) → IsSound core → OneStands core }
    ensures between { (core : Core R M) → IsSound core → StandsBetween core }
{}

/// The word of a stage is that of its slot, or 0.
pub fn slots_are_words<R, M>()
    ensures { (core : Core R M) → IsSound core → SlotsAreWords core }
{}

/// A slot stands in stages behind the one in which slots are made, and without a root none does.
pub fn slots_stand_behind<R, M>()
    ensures { (core : Core R M) → SlotsStandBehind core }
{}

/// What stands past the root has its stage's word, which decodes, and is what the word's instruction chooses; and so what is due past the
/// root when its turn comes.
pub fn past_is_chosen<R, M>()
    ensures standing { (core : Core R M) → IsSound core → PastIsChosen core }
    ensures due { (core : Core R M) → IsSound core → DueIsChosen core }
{}

/// The hardware's memory, bits and words are those of the state, after any edges: by one edge from those of the state before it, for what
/// holds no more than these; and of all edges at once.
pub fn hardware_is_state<R, M>()
    ensures stands { (core : Core R M) → IsSound core → BitsStand core }
    ensures edge { (core : Core R M) → IsSound core → EdgeIsState core }
    ensures whole { (core : Core R M) → IsSound core → HardwareIsState core }
{}
