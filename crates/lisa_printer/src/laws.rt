//! When at most 64 brackets are open in a canonical text.

ghost use Rattle.std.specs.Prelude.{ℕ, List};
ghost use Rattle.lisa_tree.specs.Brackets.{IsFlat};
ghost use Rattle.lisa_tree.specs.Descriptions.{DescriptionTree};
ghost use Rattle.lisa_tree.specs.Texts.{SpellsText};
ghost use Rattle.lisa_tree.specs.Tokens.{toks};
ghost use Rattle.lisa_printer.specs.CanonicalTokens.{description_tokens};
ghost use Rattle.lisa_printer.specs.EvenSemantics.{HasEvenSemantics};

/// At most 64 brackets are open in the canonical text of a description that some bytes spell, where each of their SEMANTICS sections
/// closes the brackets that it opens, and no others. A law: the function does nothing.
pub fn even_semantics_keep_brackets_few()
    ensures { (bytes : List ℕ) (d : DescriptionTree) (s : SpellsText bytes d) → HasEvenSemantics (toks s.tokens) → IsFlat (description_tokens d) }
{}
