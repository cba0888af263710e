//! The laws of lines, each the contract of a function that does nothing.

ghost use Rattle.std.specs.Prelude.{◌≡◌, ◌≢◌, ◌↔◌, ℕ, List, Ok, Err};
ghost use Rattle.asm_source.specs.declared.flaw.Flaw.TheVariants.{BadLine, UnknownDirective, BadExpression, NoMemory};
ghost use Rattle.std.specs.Str.Lines.{lines};
ghost use Rattle.asm_source.specs.declared.flaw.SourceFault.{SourceFault};
ghost use Rattle.asm_source.specs.Plain.{PlainPart, PlainLine};
ghost use Rattle.asm_source.specs.Parts.{line_of};
ghost use Rattle.asm_source.specs.Source.{source_of};
ghost use Rattle.source_grammar.specs.Grammar.{SpellsLine};
ghost use Rattle.source_grammar.specs.Refusals.{HasUnknownDirective, HasBadExpression, IsBadLine};
ghost use Rattle.source_grammar.specs.Sources.{SpellsLines, HasFirstFault};

/// A line says just what it spells: labels and a part are read of it exactly where they are a way to spell it.
pub fn lines_are_spelled()
    ensures found { (line : List ℕ) (labels : List (List ℕ)) (part : PlainPart) → line_of line ≡ Ok (labels, part) → SpellsLine line labels part }
    ensures only { (line : List ℕ) (labels : List (List ℕ)) (part : PlainPart) → SpellsLine line labels part → line_of line ≡ Ok (labels, part) }
    ensures single { (line : List ℕ) (labels others : List (List ℕ)) (part other : PlainPart) → SpellsLine line labels part → SpellsLine line others other → (labels ≡ others) × (part ≡ other) }
{}

/// A line that spells nothing is refused, and which flaw is told of it.
pub fn lines_are_refused()
    ensures unknown { (line : List ℕ) → (line_of line ≡ Err UnknownDirective) ↔ HasUnknownDirective line }
    ensures expression { (line : List ℕ) → (line_of line ≡ Err BadExpression) ↔ HasBadExpression line }
    ensures bad { (line : List ℕ) → (line_of line ≡ Err BadLine) ↔ IsBadLine line }
    ensures no_other { (line : List ℕ) → line_of line ≢ Err NoMemory }
{}

/// A source says just what its lines spell, and its fault is that of the first line that spells nothing.
pub fn sources_are_spelled()
    ensures said { (bytes : List ℕ) (all : List PlainLine) → (source_of bytes ≡ Ok all) ↔ SpellsLines 1 (lines bytes) all }
    ensures fault { (bytes : List ℕ) (fault : SourceFault) → (source_of bytes ≡ Err fault) ↔ HasFirstFault 1 (lines bytes) fault }
{}
