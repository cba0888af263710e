//! The values of expressions.

ghost use Rattle.std.specs.Prelude.{◌≡◌, option_map};
ghost use Rattle.lisa_tree.specs.Expressions.{expr_tree};
ghost use Rattle.description_places.specs.Literals.{literal};
ghost use Rattle.typed_values.specs.Words.{typed_word};
ghost use Rattle.typed_values.specs.Expressions.{value};
ghost use Rattle.scene_paths.specs.lisa_meaning.Moments.{bare};
ghost use Rattle.scene_paths.specs.lisa_meaning.Values.{child_value, value_of};
ghost use Rattle.scene_paths.specs.lisa_meaning.Cores.{is_true};
ghost use Rattle.moment_stores.specs.Stores.{description_of, moment_of};
ghost use Rattle.scene_paths.specs.Paths.{links_of};
ghost use Rattle.scene_paths.specs.Sights.{sight_tree, form_of, scene_at};
ghost use Rattle.behavior_runs.specs.Views.{view_tree, moment_seen, below_within, reader_within};

use crate::operands::{Operand, chosen_of, complement, literal, made_of};
use crate::view::{Named, View};
use lisa_tree::Expr;
use lisa_words::{Kind, Name};
use moment_stores::Store;
use scene_paths::{Path, Sight, child};
use typed_values::Value;

// The value of an expression, where EXPRESSIONS of children are evaluated so many levels deep.
#[cycle(values)]
fn value_at(view: View<'_>, path: &Path<'_>, levels: usize, expression: &Expr) -> Value
    ensures { typed_word result ≡ value (reader_within levels (view_tree view.entry) (scene_at view.entry.sight path.now) (moment_seen view.entry)) (expr_tree expression.now) }
{
    match expression {
        Expr::Number(value, _) => Value::number(Kind::Unsigned, *value),
        Expr::Named(name) => name_value(view, path, levels, name),
        Expr::Element(name, index) => {
            let index = value_at(view, path, levels, index);
            view.element(path, name, index.word.bits)
        }
        Expr::Input(field) | Expr::Output(field) => view.input(path, field),
        Expr::Boundary(field) => view.boundary(field),
        Expr::Decoded => view.decoded(),
        Expr::Cast(shape, value) => value_at(view, path, levels, value).as_shape(*shape),
        Expr::Complement(value) => complement(value_at(view, path, levels, value)),
        Expr::Negate(value) => Value::truth(value_at(view, path, levels, value).is_zero()),
        Expr::Two(operator, left, right) => made_of(
            *operator,
            operand(view, path, levels, left),
            operand(view, path, levels, right),
        ),
        Expr::Choose(test, left, right) => {
            let is_chosen = !value_at(view, path, levels, test).is_zero();
            chosen_of(
                is_chosen,
                operand(view, path, levels, left),
                operand(view, path, levels, right),
            )
        }
    }
}

#[cycle(values)]
fn operand(view: View<'_>, path: &Path<'_>, levels: usize, expression: &Expr) -> Operand
    ensures literal { result.literal ≡ literal (expr_tree expression.now) }
    ensures value { typed_word result.value ≡ value (reader_within levels (view_tree view.entry) (scene_at view.entry.sight path.now) (moment_seen view.entry)) (expr_tree expression.now) }
{
    Operand {
        literal: literal(expression),
        value: value_at(view, path, levels, expression),
    }
}

#[cycle(values)]
fn name_value(view: View<'_>, path: &Path<'_>, levels: usize, name: &Name) -> Value
    ensures { typed_word result ≡ (reader_within levels (view_tree view.entry) (scene_at view.entry.sight path.now) (moment_seen view.entry)).named name.now }
{
    match view.named(path, name) {
        Named::Known(value) => value,
        Named::Child(home) => match child(&view.sight, &home, name) {
            None => Value::truth(false),
            Some(below) => child_value(view.bare(), &below, levels),
        },
    }
}

// The value of the EXPRESSION of an operation, so many levels deep.
#[cycle(values)]
fn child_value(view: View<'_>, path: &Path<'_>, levels: usize) -> Value
    ensures { typed_word result ≡ child_value (below_within levels (view_tree view.entry) (scene_at view.entry.sight path.now) (moment_seen view.entry)) (view_tree view.entry) (links_of (view_tree view.entry) (form_of view.entry.sight) path.now) }
{
    let Some(operation) = path.operation(&view.sight) else {
        return Value::truth(false);
    };
    match view.sight.described().expression(operation) {
        None => Value::truth(false),
        Some(expression) => {
            if levels == 0 {
                Value::truth(false)
            } else {
                value_at(view.bare(), path, levels - 1, expression)
            }
        }
    }
}

/// The value of an expression of the operation on a path, over what a store holds.
pub fn evaluate(sight: Sight<'_>, path: &Path<'_>, store: &Store<'_>, expression: &Expr) -> Value
    requires { description_of store.now ≡ sight_tree sight }
    ensures { typed_word result ≡ value_of (sight_tree sight.entry) (scene_at sight.entry path.now) (moment_of store.now) (expr_tree expression.now) }
{
    let levels = sight.described().levels();
    value_at(View::new(sight, store), path, levels, expression)
}

/// Whether the value of an expression isn't 0, where locals aren't seen. What is missing isn't true.
pub(crate) fn is_true(
    sight: Sight<'_>,
    path: &Path<'_>,
    store: &Store<'_>,
    expression: Option<&Expr>,
) -> bool
    requires { description_of store.now ≡ sight_tree sight }
    ensures { result ≡ is_true (sight_tree sight.entry) (scene_at sight.entry path.now) (moment_of store.now) (option_map (λ e. expr_tree e.now) expression.entry) }
{
    match expression {
        None => false,
        Some(expression) => !bare_value(sight, path, store, expression).is_zero(),
    }
}

/// The value of an expression, where locals aren't seen.
pub(crate) fn bare_value(
    sight: Sight<'_>,
    path: &Path<'_>,
    store: &Store<'_>,
    expression: &Expr,
) -> Value
    requires { description_of store.now ≡ sight_tree sight }
    ensures { typed_word result ≡ value_of (sight_tree sight.entry) (scene_at sight.entry path.now) (bare (moment_of store.now)) (expr_tree expression.now) }
{
    let levels = sight.described().levels();
    value_at(View::new(sight, store).bare(), path, levels, expression)
}
