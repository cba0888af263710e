//! What holds of where things stand in a description's step program. Each law is the contract of a function that does nothing.
ghost use Rattle.lisa_tree.specs.Descriptions.{DescriptionTree};
ghost use Rattle.step_program.specs.Programs.{Program};
ghost use Rattle.lowered_layouts.specs.Laws.{ThingsArePlaced, RowsAreLaid, TimeIsLaidOut, TimeHasWidths};
ghost use Rattle.lowered_layouts.specs.Laws.{EndsClose, EndsAreFormed};
ghost use Rattle.lowered_layouts.specs.Laws.{EdgesHaveRoom, EdgesBegin, StatesAreShown, FirstIsShown};

/// Fields of boundaries, what is written to them, stalls and flushes have places of their own, and so have rows.
pub fn things_are_placed()
    ensures things { (d : DescriptionTree) (p : Program) → ThingsArePlaced d p }
    ensures rows { (d : DescriptionTree) (p : Program) → RowsAreLaid d p }
{}

/// Bits and words stand where time asks for them, each for itself, and have their widths, as have the temps of time.
pub fn time_is_laid_out()
    ensures laid_out { (d : DescriptionTree) (p : Program) → TimeIsLaidOut d p }
    ensures widths { (d : DescriptionTree) (p : Program) → TimeHasWidths d p }
{}

/// As an edge ends, the fields of boundaries become those with which the moment closes, and nothing else changes.
pub fn ends_close()
    ensures closed { (d : DescriptionTree) (p : Program) → EndsClose d p }
    ensures formed { (d : DescriptionTree) (p : Program) → EndsAreFormed d p }
{}

/// As an edge begins, what the state has is held, and each field of each boundary has room for what it gets.
pub fn edges_begin()
    ensures room { (d : DescriptionTree) → EdgesHaveRoom d }
    ensures held { (d : DescriptionTree) (p : Program) → EdgesBegin d p }
{}

/// A state has what hardware has exactly where its items and cells are those of the description's state.
pub fn states_are_shown()
    ensures shown { (d : DescriptionTree) (p : Program) → StatesAreShown d p }
    ensures first { (d : DescriptionTree) (p : Program) → FirstIsShown d p }
{}
