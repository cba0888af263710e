//! Uses in an operation's expression that go against what they are of, and uses of what is open.

ghost use Rattle.std.specs.Prelude.{◌≡◌};
ghost use Rattle.lisa_tree.specs.Expressions.{expr_tree};
ghost use Rattle.lisa_tree.specs.Resources.{is_pipeline};
ghost use Rattle.least_fixed_points.specs.Settles.{entry};
ghost use Rattle.description_types.specs.Refused.{may_input, are_apart, is_apart, meant_refused, is_no_boundary, is_refused, meant_open, is_open, two_rest, rests_on_refused, rests_on_open};

use crate::lookups::{known_entry, resource};
use crate::meant::Property;
use crate::values::Traits;
use lisa_tree::{BoundaryField, Expr, Meaning, Names, Operator, Resource};
use lisa_words::Name;

/// Whether an operation with this stage of its own reads the boundary before it.
pub fn may_input(stage: Option<usize>) -> bool
    ensures { result ≡ may_input stage }
{
    match stage {
        None => false,
        Some(stage) => stage != 0,
    }
}

/// Whether two stages don't follow each other.
pub fn are_apart(before: Option<usize>, after: Option<usize>) -> bool
    ensures { result ≡ are_apart before after }
{
    match (before, after) {
        (Some(before), Some(after)) => match before.checked_add(1) {
            None => true,
            Some(next) => next != after,
        },
        _ => false,
    }
}

/// Whether a child is neither called nor a value.
pub fn is_apart(traits: Traits) -> bool
    ensures { result ≡ is_apart traits }
{
    traits.staged || traits.rooted || traits.uncoded || traits.instructions
}

/// Whether a name is that of a pipeline.
pub fn is_pipeline<N: Names>(names: &N, name: &Name) -> bool
    ensures { result ≡ is_pipeline (N.tree names.now) name.now }
{
    match names.resource_at(name) {
        None => false,
        Some(number) => match resource(names, number) {
            Some(Resource::Pipeline(_, _)) => true,
            _ => false,
        },
    }
}

// Whether a declared name stands here that may be no value.
fn meant_refused<P: Property>(unfit: &P, meaning: Meaning) -> bool
    ensures { result ≡ meant_refused (P.holds unfit.now) meaning }
{
    match meaning {
        Meaning::Declared(number) => unfit.holds(number),
        _ => false,
    }
}

// Whether a boundary isn't that between two stages that follow each other.
fn is_no_boundary<N: Names>(names: &N, boundary: &BoundaryField) -> bool
    ensures { result ≡ is_no_boundary (N.tree names.now) boundary.now.pipe boundary.now.before boundary.now.after }
{
    !is_pipeline(names, &boundary.pipe)
        || are_apart(
            names.stage_at(&boundary.before),
            names.stage_at(&boundary.after),
        )
}

/// Whether an expression is itself a use that is refused. Which declared names may be no value is given.
pub(crate) fn is_refused<N: Names, P: Property>(
    names: &N,
    unfit: &P,
    operation: usize,
    expression: &Expr,
) -> bool
    ensures { result ≡ is_refused (P.holds unfit.now) (N.tree names.now) operation (expr_tree expression.now) }
{
    match expression {
        Expr::Named(name) => meant_refused(unfit, names.meaning(operation, name)),
        Expr::Input(_) => !may_input(names.own_stage(operation)),
        Expr::Output(_) | Expr::Decoded => true,
        Expr::Boundary(boundary) => is_no_boundary(names, boundary),
        _ => false,
    }
}

// Whether a declared name stands here that is open, and may be a value.
fn meant_open<T: Copy, N: Names, P: Property>(
    names: &N,
    unfit: &P,
    table: &[Option<T>],
    meaning: Meaning,
) -> bool
    ensures { result ≡ meant_open (P.holds unfit.now) (entry table.now) (N.tree names.now) meaning }
{
    match meaning {
        Meaning::Declared(number) => {
            !unfit.holds(number) && known_entry(names, table, number).is_none()
        }
        _ => false,
    }
}

/// Whether an expression is itself a use of what is open, and none that is refused.
pub(crate) fn is_open<T: Copy, N: Names, P: Property>(
    names: &N,
    unfit: &P,
    table: &[Option<T>],
    operation: usize,
    expression: &Expr,
) -> bool
    ensures { result ≡ is_open (P.holds unfit.now) (entry table.now) (N.tree names.now) operation (expr_tree expression.now) }
{
    match expression {
        Expr::Named(name) => meant_open(names, unfit, table, names.meaning(operation, name)),
        _ => false,
    }
}

// Whether the type of what an operator gives rests on a part of some sort, by whether its operands' types do.
fn two_rest(operator: Operator, left: bool, right: bool) -> bool
    ensures { result ≡ two_rest operator left right }
{
    match operator {
        Operator::Left | Operator::Right => left,
        Operator::Add
        | Operator::Sub
        | Operator::Mul
        | Operator::And
        | Operator::Or
        | Operator::Xor => left || right,
        _ => false,
    }
}

/// Whether the type of an expression rests on a use that is refused.
pub(crate) fn rests_on_refused<N: Names, P: Property>(
    names: &N,
    unfit: &P,
    operation: usize,
    expression: &Expr,
) -> bool
    ensures { result ≡ rests_on_refused (P.holds unfit.now) (N.tree names.now) operation (expr_tree expression.now) }
{
    match expression {
        Expr::Complement(value) => rests_on_refused(names, unfit, operation, value),
        Expr::Two(operator, left, right) => two_rest(
            *operator,
            rests_on_refused(names, unfit, operation, left),
            rests_on_refused(names, unfit, operation, right),
        ),
        Expr::Choose(_, left, right) => rests_on_refused(names, unfit, operation, left)
            || rests_on_refused(names, unfit, operation, right),
        _ => is_refused(names, unfit, operation, expression),
    }
}

/// Whether the type of an expression rests on a use of what is open.
pub(crate) fn rests_on_open<T: Copy, N: Names, P: Property>(
    names: &N,
    unfit: &P,
    table: &[Option<T>],
    operation: usize,
    expression: &Expr,
) -> bool
    ensures { result ≡ rests_on_open (P.holds unfit.now) (entry table.now) (N.tree names.now) operation (expr_tree expression.now) }
{
    match expression {
        Expr::Complement(value) => rests_on_open(names, unfit, table, operation, value),
        Expr::Two(operator, left, right) => two_rest(
            *operator,
            rests_on_open(names, unfit, table, operation, left),
            rests_on_open(names, unfit, table, operation, right),
        ),
        Expr::Choose(_, left, right) => {
            rests_on_open(names, unfit, table, operation, left)
                || rests_on_open(names, unfit, table, operation, right)
        }
        _ => is_open(names, unfit, table, operation, expression),
    }
}
