//! The sections of an operation. An accepted one has at most one of each kind; of several the first counts here.

#![tactic(auto, using(crate::proofs::Lists::one_section))]

ghost use Rattle.std.specs.Prelude.{◌≡◌, map, option_map};
ghost use Rattle.lisa_tree.specs.Expressions.{expr_tree};
ghost use Rattle.lisa_tree.specs.Statements.{stmt_trees};
ghost use Rattle.lisa_tree.specs.Activations.{act_trees};
ghost use Rattle.lisa_tree.specs.Descriptions.{coding_tree, declare_tree, section_tree};
ghost use Rattle.lisa_tree.specs.Operations.{declares_in, coding_in, syntax_in, behavior_in, expression_in, activation_in};

use crate::{Act, CodingPart, Declare, Expr, Section, Stmt, SyntaxItem};

/// The declarations.
pub fn declares(sections: &[Section]) -> &[Declare]
    ensures { map declare_tree result.now ≡ declares_in (map section_tree sections.now) }
{
    for section in sections {
        if let Section::Declare(all) = section {
            return all;
        }
    }
    &[]
}

/// The coding.
pub fn coding(sections: &[Section]) -> Option<&CodingPart>
    ensures { option_map (λ part. coding_tree part.now) result ≡ coding_in (map section_tree sections.now) }
{
    for section in sections {
        if let Section::Coding(part) = section {
            return Some(part);
        }
    }
    None
}

/// The syntax.
pub fn syntax(sections: &[Section]) -> Option<&[SyntaxItem]>
    ensures { option_map (λ all. all.now) result ≡ syntax_in (map section_tree sections.now) }
{
    for section in sections {
        if let Section::Syntax(all) = section {
            return Some(all);
        }
    }
    None
}

/// The behaviour.
pub fn behavior(sections: &[Section]) -> Option<&[Stmt]>
    ensures { option_map (λ all. stmt_trees all.now) result ≡ behavior_in (map section_tree sections.now) }
{
    for section in sections {
        if let Section::Behavior(all) = section {
            return Some(all);
        }
    }
    None
}

/// The expression.
pub fn expression(sections: &[Section]) -> Option<&Expr>
    ensures { option_map (λ e. expr_tree e.now) result ≡ expression_in (map section_tree sections.now) }
{
    for section in sections {
        if let Section::Expression(e) = section {
            return Some(e);
        }
    }
    None
}

/// The activation.
pub fn activation(sections: &[Section]) -> Option<&[Act]>
    ensures { option_map (λ all. act_trees all.now) result ≡ activation_in (map section_tree sections.now) }
{
    for section in sections {
        if let Section::Activation(all) = section {
            return Some(all);
        }
    }
    None
}
