//! The lines of listings.
ghost use Rattle.std.specs.Prelude.{◌≡◌, ◌<◌, ◌^◌, ◌++◌, ◌∷◌, ℕ, pos, List, [], true, codes, Ok};
ghost use Rattle.asm_source.specs.Bytes.{is_line_byte, is_name};
ghost use Rattle.std.specs.List.{list_all};
ghost use Rattle.asm_source.specs.Plain.{Section, Cells, Number};
ghost use Rattle.asm_source.specs.Parts.{line_of};
ghost use Rattle.lisa_object.specs.Texts.{hex};

/// A line with a memory's name, or with a value, is read as a section or as one cell; a comment may stand behind the value.
pub fn listing_lines_are_read()
    ensures section { (name : List ℕ) → is_name name ≡ true → line_of (codes ".section " ++ name) ≡ Ok ([], Section name) }
    ensures value { (w : ℕ) → w < 2 ^ 64 → line_of (codes ".word 0x" ++ hex w) ≡ Ok ([], Cells (Number (pos w) ∷ [])) }
    ensures noted { (w : ℕ) (note : List ℕ) → w < 2 ^ 64 → list_all is_line_byte note ≡ true → line_of ((codes ".word 0x" ++ hex w) ++ (codes " ; " ++ note)) ≡ Ok ([], Cells (Number (pos w) ∷ [])) }
{}
