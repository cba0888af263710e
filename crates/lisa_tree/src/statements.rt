//! Statements of a behaviour.

use crate::expressions::Expr;
use crate::tokens::Shape;
use lisa_words::Name;

/// The head of a loop: `for (shape name = first; test; next = step)`. Without a `shape` the variable has none.
#[derive(Debug, Drop)]
pub struct ForHead {
    pub shape: Option<Shape>,
    pub name: Name,
    pub first: Expr,
    pub test: Expr,
    pub next: Name,
    pub step: Expr,
}

/// A statement.
#[derive(Debug, Drop)]
pub enum Stmt {
    /// `;`
    Empty,
    /// `{ .. }`
    Block(Vec<Stmt>),
    /// `type name;` or `type name = e;`
    Local(Shape, Name, Option<Expr>),
    /// `place = e;`
    Assign(Expr, Expr),
    /// `if (e) s` or `if (e) s else t`
    If(Expr, Box<Stmt>, Option<Box<Stmt>>),
    /// `while (e) s`, which no accepted description has.
    While(Expr, Box<Stmt>),
    For(Box<ForHead>, Box<Stmt>),
    /// `child();`
    Call(Name),
    /// `pipe.stage.stall();`
    Stall(Name, Name),
    /// `pipe.stage.flush();`
    Flush(Name, Name),
    /// `pipe.execute();`
    Execute(Name),
    /// `pipe.shift();`
    Shift(Name),
}
