//! The occurrences of a tree, each with a tree of its own.

ghost use Rattle.std.specs.Prelude.{◌≡◌, ◌++◌, IfOk, OnOk, map};
ghost use Rattle.pipeline_time.specs.Acts.{nodes};
ghost use Rattle.pipeline_runs.specs.Runs.{acts_of, node_of};

use pipeline_runs::{Occurrence, Tree};
use std::alloc::{AllocError, Global};

// A tree of the same items.
fn copy_tree(alloc: Global, tree: &Tree) -> Result<Tree, AllocError>
    ensures { IfOk result (λ copy. acts_of copy ≡ acts_of tree.now) }
{
    match tree {
        Tree::Nothing => Ok(Tree::Nothing),
        Tree::Item(number, level, past, own, rest) => {
            let own = Box::new(alloc, copy_tree(alloc, own)?)?;
            let rest = Box::new(alloc, copy_tree(alloc, rest)?)?;
            Ok(Tree::Item(*number, *level, *past, own, rest))
        }
        Tree::If(number, test, taken, other, rest) => {
            let taken = Box::new(alloc, copy_tree(alloc, taken)?)?;
            let other = Box::new(alloc, copy_tree(alloc, other)?)?;
            let rest = Box::new(alloc, copy_tree(alloc, rest)?)?;
            Ok(Tree::If(*number, *test, taken, other, rest))
        }
    }
}

/// Appends the occurrences among items under an activator of a level, and those below them, in order of their numbers.
pub(crate) fn list_nodes(
    alloc: Global,
    above: u8,
    tree: &Tree,
    found: &mut Vec<Occurrence>,
) -> Result<(), AllocError>
    ensures { OnOk result (map node_of found.new.items ≡ map node_of found.old.items ++ nodes above (acts_of tree.now)) }
{
    match tree {
        Tree::Nothing => Ok(()),
        Tree::Item(number, level, past, own, rest) => {
            found.push(Occurrence {
                number: *number,
                above,
                level: *level,
                past: *past,
                own: copy_tree(alloc, own)?,
            })?;
            list_nodes(alloc, *level, own, found)?;
            list_nodes(alloc, above, rest, found)
        }
        Tree::If(_, _, taken, other, rest) => {
            list_nodes(alloc, above, taken, found)?;
            list_nodes(alloc, above, other, found)?;
            list_nodes(alloc, above, rest, found)
        }
    }
}
