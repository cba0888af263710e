// Places that are assigned to.
ghost use Rattle.std.specs.Prelude.{◌≡◌, ◌≤◌, slice_get};
ghost use Rattle.lisa_tree.specs.Expressions.{expr_tree};
ghost use Rattle.lisa_tree.specs.Operations.{own_stage};
ghost use Rattle.lisa_tree.specs.Meanings.{meaning};
ghost use Rattle.typed_values.specs.Effects.{in_kind};
ghost use Rattle.scene_paths.specs.lisa_meaning.Scenes.{running};
ghost use Rattle.scene_paths.specs.lisa_meaning.Values.{field_place, named_array, value_of};
ghost use Rattle.scene_paths.specs.lisa_meaning.Effects.{bits_for, child_put, element_put, meant_put, out_put, put, resource_put};
ghost use Rattle.moment_stores.specs.Stores.{description_of, moment_of, local_count, Keeps};
ghost use Rattle.scene_paths.specs.Paths.{links_of};
ghost use Rattle.scene_paths.specs.Sights.{sight_tree, form_of, scene_at};
ghost use Rattle.behavior_runs.specs.Running.{put_below_within};

use crate::evaluation::evaluate;
use crate::registers::register_at;
use lisa_tree::{Expr, Meaning, Shape};
use lisa_words::{Name, Word};
use moment_stores::Store;
use scene_paths::{Path, Sight, child, home};
use typed_values::Whole;

// What is given, at the width of its place.
fn word_for(shape: Shape, given: Whole) -> Word
    requires least { 1 ≤ shape.width }
    requires most { shape.width ≤ 64 }
    ensures bits { result.bits ≡ bits_for shape (in_kind given) }
    ensures width { result.width ≡ shape.width }
{
    given.in_kind(shape.kind).fitted(shape.width)
}

// Assigns to a register that is no array.
fn put_resource(sight: Sight<'_>, number: usize, given: Whole, store: &mut Store<'_>)
    requires { description_of store.old ≡ sight_tree sight }
    ensures moment { moment_of store.new ≡ resource_put (sight_tree sight.entry) number (slice_get (sight_tree sight.entry).resources number) (in_kind given) (moment_of store.old) }
    ensures keeps { Keeps store.old store.new }
    ensures count { local_count store.new ≡ local_count store.old }
{
    if let Some(register) = register_at(sight.described(), number) {
        let word = word_for(register.shape, given);
        store.put_register(register.place, word);
    }
}

// Assigns to an element.
fn put_element(
    sight: Sight<'_>,
    path: &Path<'_>,
    name: &Name,
    index: &Expr,
    given: Whole,
    store: &mut Store<'_>,
)
    requires { description_of store.old ≡ sight_tree sight }
    ensures moment { moment_of store.new ≡ element_put (named_array (sight_tree sight.entry) (running (scene_at sight.entry path.now)) name.now) (value_of (sight_tree sight.entry) (scene_at sight.entry path.now) (moment_of store.old) (expr_tree index.now)).bits (in_kind given) (moment_of store.old) }
    ensures keeps { Keeps store.old store.new }
    ensures count { local_count store.new ≡ local_count store.old }
{
    if let Some(array) = sight.described().array(path.running(&sight), name) {
        let index = evaluate(sight, path, store, index);
        let word = word_for(array.shape, given);
        store.put_cell(array.place, array.index(index.word.bits), word);
    }
}

// Assigns to a field of the boundary behind the own stage.
fn put_output(sight: Sight<'_>, path: &Path<'_>, field: &Name, given: Whole, store: &mut Store<'_>)
    requires { description_of store.old ≡ sight_tree sight }
    ensures moment { moment_of store.new ≡ out_put (sight_tree sight.entry) (own_stage (sight_tree sight.entry) (running (scene_at sight.entry path.now))) (field_place (sight_tree sight.entry) field.now) (in_kind given) (moment_of store.old) }
    ensures keeps { Keeps store.old store.new }
    ensures count { local_count store.new ≡ local_count store.old }
{
    let described = sight.described();
    let Some(stage) = described.own_stage(path.running(&sight)) else {
        return;
    };
    let Some(place) = described.field_place(field) else {
        return;
    };
    if let Some(shape) = described.shape_at(place) {
        described.accepted();
        let word = word_for(shape, given);
        store.put_out(stage, place, word);
    }
}

// Assigns to a name that is no local.
#[cycle(targets)]
fn put_meant(
    sight: Sight<'_>,
    path: &Path<'_>,
    levels: usize,
    name: &Name,
    given: Whole,
    store: &mut Store<'_>,
)
    requires { description_of store.old ≡ sight_tree sight }
    ensures moment { moment_of store.new ≡ meant_put (put_below_within levels (sight_tree sight.entry) (scene_at sight.entry path.now)) (sight_tree sight.entry) (scene_at sight.entry path.now) name.now (meaning (sight_tree sight.entry) (running (scene_at sight.entry path.now)) name.now) (in_kind given) (moment_of store.old) }
    ensures keeps { Keeps store.old store.new }
    ensures count { local_count store.new ≡ local_count store.old }
{
    match sight.described().meaning(path.running(&sight), name) {
        Meaning::Nothing => {}
        Meaning::Resource(number) => put_resource(sight, number, given, store),
        Meaning::Declared(_) => {
            let Some(home) = home(&sight, path, name) else {
                return;
            };
            let Some(below) = child(&sight, &home, name) else {
                return;
            };
            put_child(sight, &below, levels, given, store);
        }
    }
}

// Assigns to the EXPRESSION of an operation.
#[cycle(targets)]
fn put_child(sight: Sight<'_>, path: &Path<'_>, levels: usize, given: Whole, store: &mut Store<'_>)
    requires { description_of store.old ≡ sight_tree sight }
    ensures moment { moment_of store.new ≡ child_put (put_below_within levels (sight_tree sight.entry) (scene_at sight.entry path.now)) (sight_tree sight.entry) (links_of (sight_tree sight.entry) (form_of sight.entry) path.now) (in_kind given) (moment_of store.old) }
    ensures keeps { Keeps store.old store.new }
    ensures count { local_count store.new ≡ local_count store.old }
{
    let Some(operation) = path.operation(&sight) else {
        return;
    };
    let Some(place) = sight.described().expression(operation) else {
        return;
    };
    if levels > 0 {
        let outer = store.enter();
        put(sight, path, levels - 1, place, given, store);
        store.exit(outer);
    }
}

/// Assigns to a place. EXPRESSIONS of children are places so many levels deep.
#[cycle(targets)]
pub(crate) fn put(
    sight: Sight<'_>,
    path: &Path<'_>,
    levels: usize,
    target: &Expr,
    given: Whole,
    store: &mut Store<'_>,
)
    requires { description_of store.old ≡ sight_tree sight }
    ensures moment { moment_of store.new ≡ put (put_below_within levels (sight_tree sight.entry) (scene_at sight.entry path.now)) (sight_tree sight.entry) (scene_at sight.entry path.now) (expr_tree target.now) (in_kind given) (moment_of store.old) }
    ensures keeps { Keeps store.old store.new }
    ensures count { local_count store.new ≡ local_count store.old }
{
    match target {
        Expr::Named(name) => match store.local(name) {
            Some(old) => store.change_local(name, given.like(old)),
            None => put_meant(sight, path, levels, name, given, store),
        },
        Expr::Element(name, index) => put_element(sight, path, name, index, given, store),
        Expr::Output(field) => put_output(sight, path, field, given, store),
        _ => {}
    }
}
