//! Laws of the templates. Each is the contract of a function that does nothing.
ghost use Rattle.std.specs.Prelude.{◌≡◌, ◌<◌, ◌≤◌, ◌^◌, ℕ, List, cond};
ghost use Rattle.lisa_words.specs.declared.words.Kind.{Kind};
ghost use Rattle.lisa_words.specs.Words.{word_less, word_shr};
ghost use Rattle.step_program.specs.Programs.{Program, Expr};
ghost use Rattle.step_program.specs.Effects.{Moment, value, width};
ghost use Rattle.typed_values.specs.Words.{TypedWord, fitted as fitted_bits, is_zero as has_no_bit};
ghost use Rattle.lowered_values.specs.Operands.{Operand, StandsFor};
ghost use Rattle.lowered_values.specs.Templates.{fitted, picked, less, moved_down};
ghost use Rattle.lowered_values.specs.Sources.{Sources};
ghost use Rattle.lowered_values.specs.Laws.{ExpressionsCompute, ExpressionsAreScratch, ExpressionsAreFormed};

/// An operand at another width is the value's bits at that width: cut, or widened by its kind.
pub fn operands_fit()
    ensures bits { (p : Program) (before pins : List ℕ) (now : Moment) (x : Operand) (v : TypedWord) (to : ℕ) → StandsFor p before pins now x v → value p before pins now (fitted x to) ≡ fitted_bits v to }
    ensures width { (p : Program) (before pins : List ℕ) (now : Moment) (x : Operand) (v : TypedWord) (to : ℕ) → StandsFor p before pins now x v → width p (fitted x to) ≡ to }
{}

/// A choice by an operand is the first of two where the value isn't 0.
pub fn operands_choose()
    ensures { (p : Program) (before pins : List ℕ) (now : Moment) (x : Operand) (v : TypedWord) (this other : Expr) → StandsFor p before pins now x v → value p before pins now (picked x this other) ≡ cond (has_no_bit v) (value p before pins now other) (value p before pins now this) }
{}

/// Words of a width are compared as numbers of their kind.
pub fn words_compare()
    ensures { (p : Program) (before pins : List ℕ) (now : Moment) (kind : Kind) (w : ℕ) (x y : Expr) → 1 ≤ w → width p x ≡ w → width p y ≡ w → value p before pins now x < 2 ^ w → value p before pins now y < 2 ^ w → value p before pins now (less kind w x y) ≡ cond (word_less kind w (value p before pins now x) (value p before pins now y)) 1 0 }
{}

/// A word is moved down as a number of its kind.
pub fn words_move()
    ensures { (p : Program) (before pins : List ℕ) (now : Moment) (kind : Kind) (w : ℕ) (x by : Expr) → 1 ≤ w → width p x ≡ w → value p before pins now x < 2 ^ w → value p before pins now (moved_down kind w x by) ≡ word_shr kind w (value p before pins now x) (value p before pins now by) }
{}

/// The steps of an expression leave its value in its operand, where all that it names has the value that is read, and all else but temps
/// of its own as it was.
pub fn expressions_compute()
    ensures { (p : Program) (before pins : List ℕ) → ExpressionsCompute p before pins }
{}

/// The steps of an expression give values to temps of its own alone, whatever it names.
pub fn expressions_are_scratch()
    ensures { (s : Sources) → ExpressionsAreScratch s }
{}

/// The steps of an expression are well formed and not deep, where all that it names is there.
pub fn expressions_are_formed()
    ensures { (p : Program) → ExpressionsAreFormed p }
{}
