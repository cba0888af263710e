//! What the grammar of resources and of an operation's sections comes to.

ghost use Rattle.std.specs.Prelude.{◌≡◌, ◌++◌, List, Some, true};
ghost use Rattle.lisa_tree.specs.declared.descriptions.SyntaxItem.{SyntaxItem};
ghost use Rattle.lisa_tree.specs.Descriptions.{ResourceTree, CodingTree, DeclareTree};
ghost use Rattle.lisa_tree.specs.Grammar.{Toks};
ghost use Rattle.lisa_tree.specs.DescriptionGrammar.{Each, SpellsResource, SpellsDeclare, SpellsCoding, syntax_tokens, IsSyntax};
ghost use Rattle.lisa_section_reader.specs.Resources.{ends, resources_of};
ghost use Rattle.lisa_section_reader.specs.Declares.{declares_of};
ghost use Rattle.lisa_section_reader.specs.Codings.{coding_of};
ghost use Rattle.lisa_section_reader.specs.Syntaxes.{syntax_of};

/// The list that reading resources gives is what the tokens up to a `}` spell, and the only one.
pub fn resources_are_read()
    ensures found { (ts : Toks) (x : List ResourceTree × Toks) → resources_of ts ≡ Some x → (xs : Toks) × (ts ≡ xs ++ x.1) × Each SpellsResource xs x.0 × (ends x.1 ≡ true) }
    ensures only { (ts rest : Toks) (all : List ResourceTree) → Each SpellsResource ts all → ends rest ≡ true → resources_of (ts ++ rest) ≡ Some (all, rest) }
{}

/// The list that reading declarations gives is what the tokens up to a `}` spell, and the only one.
pub fn declares_are_read()
    ensures found { (ts : Toks) (x : List DeclareTree × Toks) → declares_of ts ≡ Some x → (xs : Toks) × (ts ≡ xs ++ x.1) × Each SpellsDeclare xs x.0 × (ends x.1 ≡ true) }
    ensures only { (ts rest : Toks) (all : List DeclareTree) → Each SpellsDeclare ts all → ends rest ≡ true → declares_of (ts ++ rest) ≡ Some (all, rest) }
{}

/// The coding that reading gives is spelled by the tokens that it takes. Where a `}` follows what the tokens spell, it
/// is the one that is read.
pub fn codings_are_read()
    ensures found { (ts : Toks) (x : CodingTree × Toks) → coding_of ts ≡ Some x → (xs : Toks) × (ts ≡ xs ++ x.1) × SpellsCoding xs x.0 }
    ensures only { (ts rest : Toks) (part : CodingTree) → SpellsCoding ts part → ends rest ≡ true → coding_of (ts ++ rest) ≡ Some (part, rest) }
{}

/// The elements that reading a syntax gives are those whose tokens stand up to a `}`, and the only ones.
pub fn syntaxes_are_read()
    ensures found { (ts : Toks) (x : List SyntaxItem × Toks) → syntax_of ts ≡ Some x → (ts ≡ syntax_tokens x.0 ++ x.1) × IsSyntax x.0 × (ends x.1 ≡ true) }
    ensures only { (all : List SyntaxItem) (rest : Toks) → IsSyntax all → ends rest ≡ true → syntax_of (syntax_tokens all ++ rest) ≡ Some (all, rest) }
{}
