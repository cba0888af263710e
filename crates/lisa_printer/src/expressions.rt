// The tokens of an expression, with parentheses only where the grammar needs them.
#![tactic(auto, using(crate::proofs::SheetLaws::sheet_steps))]

ghost use Rattle.std.specs.Prelude.{◌≡◌, ◌≤◌, ◌∷◌, ◌++◌, [], OnOk};
ghost use Rattle.lisa_tree.specs.declared.tokens.Sign.TheVariants as signs;
ghost use Rattle.lisa_tree.specs.declared.tokens.TokenPart.TheVariants as parts;
ghost use Rattle.lisa_tree.specs.Grammar.{mark};
ghost use Rattle.lisa_tree.specs.Operators.{sign_of};
ghost use Rattle.lisa_words.specs.Operators.{level_of};
ghost use Rattle.lisa_tree.specs.Expressions.{Boundary, expr_tree};
ghost use Rattle.lisa_printer.specs.CanonicalTokens.{own_level, bare_tokens, expr_tokens};
ghost use Rattle.lisa_printer.specs.Sheets.{write_all};

use crate::pages::Page;
use crate::tokens::{
    put_binary, put_decimal, put_hexadecimal, put_name, put_shape, put_sign, put_word,
};
use lisa_tree::{Base, BoundaryField, Expr, Keyword, Operator, Sign};
use lisa_words::{Name, NoMemory, level};
use std::alloc::Global;

fn sign(operator: Operator) -> Sign
    ensures { result ≡ sign_of operator }
{
    match operator {
        Operator::OneTrue => Sign::OrOr,
        Operator::BothTrue => Sign::AndAnd,
        Operator::Or => Sign::Or,
        Operator::Xor => Sign::Caret,
        Operator::And => Sign::And,
        Operator::Equal => Sign::EqualEqual,
        Operator::Unequal => Sign::NotEqual,
        Operator::Less => Sign::Less,
        Operator::LessEqual => Sign::LessEqual,
        Operator::Greater => Sign::Greater,
        Operator::GreaterEqual => Sign::GreaterEqual,
        Operator::Left => Sign::ShiftLeft,
        Operator::Right => Sign::ShiftRight,
        Operator::Add => Sign::Plus,
        Operator::Sub => Sign::Minus,
        Operator::Mul => Sign::Star,
    }
}

// The tightest level at which an expression is spelled without parentheses round it.
fn own_level(e: &Expr) -> u8
    ensures { result ≡ own_level (expr_tree e.now) }
{
    match e {
        Expr::Cast(_, _) | Expr::Complement(_) | Expr::Negate(_) => 11,
        Expr::Two(operator, _, _) => level(*operator),
        Expr::Choose(_, _, _) => 0,
        _ => 12,
    }
}

/// An expression as it stands at a level.
#[cycle(expressions)]
pub fn put_expr(alloc: Global, page: &mut Page, level: u8, e: &Expr) -> Result<(), NoMemory>
    ensures { OnOk result (page.new ≡ write_all page.old (expr_tokens level (expr_tree e.now))) }
{
    if own_level(e) < level {
        put_wrapped(alloc, page, e)
    } else {
        put_bare(alloc, page, e)
    }
}

// An expression in parentheses.
#[cycle(expressions)]
fn put_wrapped(alloc: Global, page: &mut Page, e: &Expr) -> Result<(), NoMemory>
    ensures { OnOk result (page.new ≡ write_all page.old (mark signs.OpenRound ∷ (bare_tokens (expr_tree e.now) ++ mark signs.CloseRound ∷ []))) }
{
    put_sign(page, Sign::OpenRound)?;
    put_bare(alloc, page, e)?;
    put_sign(page, Sign::CloseRound)
}

/// An expression without parentheses round it, or a place that is assigned.
#[cycle(expressions)]
pub fn put_bare(alloc: Global, page: &mut Page, e: &Expr) -> Result<(), NoMemory>
    ensures { OnOk result (page.new ≡ write_all page.old (bare_tokens (expr_tree e.now))) }
{
    match e {
        Expr::Number(value, Base::Decimal) => put_decimal(page, *value),
        Expr::Number(value, Base::Hexadecimal) => put_hexadecimal(page, *value),
        Expr::Number(value, Base::Binary) => put_binary(alloc, page, *value),
        Expr::Named(name) => put_name(page, name),
        Expr::Element(name, index) => {
            put_name(page, name)?;
            put_sign(page, Sign::OpenSquare)?;
            put_expr(alloc, page, 0, index)?;
            put_sign(page, Sign::CloseSquare)
        }
        Expr::Input(field) => put_field(page, Keyword::In, field),
        Expr::Output(field) => put_field(page, Keyword::Out, field),
        Expr::Boundary(boundary) => put_boundary(page, boundary),
        Expr::Decoded => put_word(page, Keyword::Decoded),
        Expr::Cast(shape, operand) => {
            put_sign(page, Sign::OpenRound)?;
            put_shape(page, *shape)?;
            put_sign(page, Sign::CloseRound)?;
            put_expr(alloc, page, 11, operand)
        }
        Expr::Complement(operand) => {
            put_sign(page, Sign::Tilde)?;
            put_expr(alloc, page, 11, operand)
        }
        Expr::Negate(operand) => {
            put_sign(page, Sign::Exclamation)?;
            put_expr(alloc, page, 11, operand)
        }
        Expr::Two(operator, left, right) => {
            put_expr(alloc, page, level(*operator), left)?;
            put_sign(page, sign(*operator))?;
            put_expr(alloc, page, level(*operator) + 1, right)
        }
        Expr::Choose(test, yes, no) => {
            put_expr(alloc, page, 1, test)?;
            put_sign(page, Sign::Question)?;
            put_expr(alloc, page, 0, yes)?;
            put_sign(page, Sign::Colon)?;
            put_expr(alloc, page, 0, no)
        }
    }
}

// `IN.field` or `OUT.field`
fn put_field(page: &mut Page, side: Keyword, field: &Name) -> Result<(), NoMemory>
    ensures { OnOk result (page.new ≡ write_all page.old (parts.Reserved side ∷ mark signs.Dot ∷ parts.Named field.now ∷ [])) }
{
    put_word(page, side)?;
    put_sign(page, Sign::Dot)?;
    put_name(page, field)
}

fn put_boundary(page: &mut Page, boundary: &BoundaryField) -> Result<(), NoMemory>
    ensures { OnOk result (page.new ≡ write_all page.old (bare_tokens (Boundary boundary.now.pipe boundary.now.before boundary.now.after boundary.now.field))) }
{
    put_word(page, Keyword::PipelineRegister)?;
    put_sign(page, Sign::OpenRound)?;
    put_name(page, &boundary.pipe)?;
    put_sign(page, Sign::Comma)?;
    put_name(page, &boundary.before)?;
    put_sign(page, Sign::Slash)?;
    put_name(page, &boundary.after)?;
    put_sign(page, Sign::CloseRound)?;
    put_sign(page, Sign::Dot)?;
    put_name(page, &boundary.field)
}
