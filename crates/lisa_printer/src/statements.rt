// The tokens of a statement.
#![tactic(auto, using(crate::proofs::SheetLaws::sheet_steps))]

ghost use Rattle.std.specs.Prelude.{◌≡◌, ◌∷◌, ◌++◌, [], OnOk};
ghost use Rattle.lisa_tree.specs.declared.tokens.Sign.TheVariants as signs;
ghost use Rattle.lisa_tree.specs.declared.tokens.TokenPart.TheVariants as parts;
ghost use Rattle.lisa_tree.specs.Grammar.{mark, shape_tokens, call_end};
ghost use Rattle.lisa_tree.specs.Expressions.{expr_tree};
ghost use Rattle.std.specs.Option.{option_map};
ghost use Rattle.lisa_tree.specs.Statements.{Local, head_tree, stmt_tree, stmt_trees};
ghost use Rattle.lisa_printer.specs.CanonicalTokens.{head_tokens, expr_tokens, stmt_tokens, stmts_tokens};
ghost use Rattle.lisa_printer.specs.Sheets.{write_all};

use crate::expressions::{put_bare, put_expr};
use crate::pages::Page;
use crate::tokens::{put_ascii, put_name, put_shape, put_sign, put_word};
use lisa_tree::{Expr, ForHead, Keyword, Shape, Sign, Stmt};
use lisa_words::{Name, NoMemory};
use std::alloc::Global;

/// Statements, one behind the other.
#[cycle(statements)]
pub fn put_stmts(alloc: Global, page: &mut Page, all: &[Stmt]) -> Result<(), NoMemory>
    ensures { OnOk result (page.new ≡ write_all page.old (stmts_tokens (stmt_trees all.now))) }
{
    for s in all {
        put_stmt(alloc, page, s)?;
    }
    Ok(())
}

#[cycle(statements)]
fn put_stmt(alloc: Global, page: &mut Page, s: &Stmt) -> Result<(), NoMemory>
    ensures { OnOk result (page.new ≡ write_all page.old (stmt_tokens (stmt_tree s.now))) }
{
    match s {
        Stmt::Empty => put_sign(page, Sign::Semicolon),
        Stmt::Block(all) => put_block(alloc, page, all),
        Stmt::Local(shape, name, value) => put_local(alloc, page, *shape, name, value),
        Stmt::Assign(place, value) => {
            put_bare(alloc, page, place)?;
            put_sign(page, Sign::Equal)?;
            put_expr(alloc, page, 0, value)?;
            put_sign(page, Sign::Semicolon)
        }
        Stmt::If(test, chosen, other) => {
            put_test(alloc, page, Keyword::If, test)?;
            put_stmt(alloc, page, chosen)?;
            match other {
                None => Ok(()),
                Some(other) => {
                    put_word(page, Keyword::Else)?;
                    put_stmt(alloc, page, other)
                }
            }
        }
        Stmt::While(test, body) => {
            put_test(alloc, page, Keyword::While, test)?;
            put_stmt(alloc, page, body)
        }
        Stmt::For(head, body) => {
            put_word(page, Keyword::For)?;
            put_sign(page, Sign::OpenRound)?;
            put_head(alloc, page, head)?;
            put_sign(page, Sign::CloseRound)?;
            put_stmt(alloc, page, body)
        }
        Stmt::Call(name) => {
            put_name(page, name)?;
            put_call_end(page)
        }
        Stmt::Stall(pipe, stage) => put_control(page, pipe, stage, b"stall"),
        Stmt::Flush(pipe, stage) => put_control(page, pipe, stage, b"flush"),
        Stmt::Execute(pipe) => put_step(page, pipe, b"execute"),
        Stmt::Shift(pipe) => put_step(page, pipe, b"shift"),
    }
}

#[cycle(statements)]
fn put_block(alloc: Global, page: &mut Page, all: &[Stmt]) -> Result<(), NoMemory>
    ensures { OnOk result (page.new ≡ write_all page.old (mark signs.OpenBrace ∷ (stmts_tokens (stmt_trees all.now) ++ mark signs.CloseBrace ∷ []))) }
{
    put_sign(page, Sign::OpenBrace)?;
    put_stmts(alloc, page, all)?;
    put_sign(page, Sign::CloseBrace)
}

fn put_local(
    alloc: Global,
    page: &mut Page,
    shape: Shape,
    name: &Name,
    value: &Option<Expr>,
) -> Result<(), NoMemory>
    ensures { OnOk result (page.new ≡ write_all page.old (stmt_tokens (Local shape name.now (option_map expr_tree value.now)))) }
{
    put_shape(page, shape)?;
    put_name(page, name)?;
    if let Some(value) = value {
        put_sign(page, Sign::Equal)?;
        put_expr(alloc, page, 0, value)?;
    }
    put_sign(page, Sign::Semicolon)
}

/// `word (e)`
pub fn put_test(alloc: Global, page: &mut Page, word: Keyword, test: &Expr) -> Result<(), NoMemory>
    ensures { OnOk result (page.new ≡ write_all page.old (parts.Reserved word ∷ mark signs.OpenRound ∷ (expr_tokens 0 (expr_tree test.now) ++ (mark signs.CloseRound ∷ [])))) }
{
    put_word(page, word)?;
    put_sign(page, Sign::OpenRound)?;
    put_expr(alloc, page, 0, test)?;
    put_sign(page, Sign::CloseRound)
}

// `[type] name = e; e; name = e`
fn put_head(alloc: Global, page: &mut Page, head: &ForHead) -> Result<(), NoMemory>
    ensures { OnOk result (page.new ≡ write_all page.old (head_tokens (head_tree head.now))) }
{
    put_optional_shape(page, head.shape)?;
    put_name(page, &head.name)?;
    put_sign(page, Sign::Equal)?;
    put_expr(alloc, page, 0, &head.first)?;
    put_sign(page, Sign::Semicolon)?;
    put_expr(alloc, page, 0, &head.test)?;
    put_sign(page, Sign::Semicolon)?;
    put_name(page, &head.next)?;
    put_sign(page, Sign::Equal)?;
    put_expr(alloc, page, 0, &head.step)
}

fn put_optional_shape(page: &mut Page, shape: Option<Shape>) -> Result<(), NoMemory>
    ensures { OnOk result (page.new ≡ write_all page.old (shape_tokens shape)) }
{
    match shape {
        None => Ok(()),
        Some(shape) => put_shape(page, shape),
    }
}

// `();`
fn put_call_end(page: &mut Page) -> Result<(), NoMemory>
    ensures { OnOk result (page.new ≡ write_all page.old call_end) }
{
    put_sign(page, Sign::OpenRound)?;
    put_sign(page, Sign::CloseRound)?;
    put_sign(page, Sign::Semicolon)
}

// `pipe.stage.what();`
fn put_control(page: &mut Page, pipe: &Name, stage: &Name, what: &[u8]) -> Result<(), NoMemory>
    ensures { OnOk result (page.new ≡ write_all page.old (parts.Named pipe.now ∷ mark signs.Dot ∷ parts.Named stage.now ∷ mark signs.Dot ∷ parts.Named what.now ∷ call_end)) }
{
    put_name(page, pipe)?;
    put_sign(page, Sign::Dot)?;
    put_step(page, stage, what)
}

// `pipe.what();`
fn put_step(page: &mut Page, pipe: &Name, what: &[u8]) -> Result<(), NoMemory>
    ensures { OnOk result (page.new ≡ write_all page.old (parts.Named pipe.now ∷ mark signs.Dot ∷ parts.Named what.now ∷ call_end)) }
{
    put_name(page, pipe)?;
    put_sign(page, Sign::Dot)?;
    put_ascii(page, what)?;
    put_call_end(page)
}
