//! Laws of pieces. Each is the contract of a function that does nothing.
ghost use Rattle.std.specs.Prelude.{ℕ, List};
ghost use Rattle.step_program.specs.Programs.{Program};
ghost use Rattle.step_pieces.specs.Laws.{PiecesFollow, ScratchRests, LeavesLast, TempsHold, TempsRest, PiecesAreFormed};

/// One piece behind another runs after it.
pub fn pieces_follow()
    ensures { (p : Program) (before pins : List ℕ) → PiecesFollow p before pins }
{}

/// Steps that give values to temps from a place on leave all else as it was, whatever their guards.
pub fn scratch_rests()
    ensures { (p : Program) (before pins : List ℕ) → ScratchRests p before pins }
{}

/// A leaf has its value still, where all that it reads is as it was.
pub fn leaves_last()
    ensures { (p : Program) (before pins : List ℕ) → LeavesLast p before pins }
{}

/// A temp that is set holds the value, and the temps below are as they were.
pub fn temps_hold()
    ensures holds { (p : Program) (before pins : List ℕ) → TempsHold p before pins }
    ensures rests { (p : Program) (before pins : List ℕ) → TempsRest p before pins }
{}

/// A well-formed piece with one temp more is well formed, where the temp's value fits it.
pub fn pieces_are_formed()
    ensures { (p : Program) → PiecesAreFormed p }
{}
