//! The names that expressions read.
ghost use Rattle.std.specs.Prelude.{◌≡◌, ◌++◌, IfOk, OnOk};
ghost use Rattle.lisa_tree.specs.Expressions.{expr_tree};
ghost use Rattle.scene_paths.specs.Lookups.{tree_of};
ghost use Rattle.lowered_statements.specs.Code.{scope_of};
ghost use Rattle.lowered_behaviors.specs.Values.{names_in};
ghost use Rattle.lowered_behaviors.specs.Code.{entry_here, texts_of};

use lisa_tree::{Expr, Meaning};
use lisa_words::{Name, NoMemory};
use lowered_statements::Locals;
use scene_paths::Described;
use std::alloc::Global;

fn add_names<'e>(e: &'e Expr, names: &mut Vec<&'e Name>) -> Result<(), NoMemory>
    ensures { OnOk result (texts_of names.new.items ≡ texts_of names.old.items ++ names_in (expr_tree e.now)) }
{
    match e {
        Expr::Named(name) => {
            names.push(name)?;
            Ok(())
        }
        Expr::Element(_, index) => {
            add_names(index, names)?;
            Ok(())
        }
        Expr::Cast(_, a) | Expr::Complement(a) | Expr::Negate(a) => {
            add_names(a, names)?;
            Ok(())
        }
        Expr::Two(_, a, b) => {
            add_names(a, names)?;
            add_names(b, names)?;
            Ok(())
        }
        Expr::Choose(c, a, b) => {
            add_names(c, names)?;
            add_names(a, names)?;
            add_names(b, names)?;
            Ok(())
        }
        Expr::Number(_, _) | Expr::Input(_) | Expr::Output(_) | Expr::Boundary(_) | Expr::Decoded =>
            Ok(()),
    }
}

/// The names that an expression reads, in order.
pub(crate) fn names_in(alloc: Global, e: &Expr) -> Result<Vec<&Name>, NoMemory>
    ensures { IfOk result (λ names. texts_of names.items ≡ names_in (expr_tree e.now)) }
{
    let mut names = Vec::new(alloc);
    add_names(e, &mut names)?;
    Ok(names)
}

/// The number among all declared names of one that the operation declares, where it is no local's.
pub(crate) fn entry_here(
    described: &Described<'_>,
    operation: usize,
    locals: &Locals,
    name: &Name,
) -> Option<usize>
    ensures { result ≡ entry_here (tree_of described.now) operation (scope_of locals.now) name.now }
{
    match locals.find(name) {
        Some(_) => None,
        None => match described.meaning(operation, name) {
            Meaning::Nothing => None,
            Meaning::Resource(_) => None,
            Meaning::Declared(entry) => Some(entry),
        },
    }
}
