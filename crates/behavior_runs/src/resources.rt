//! The values of resources and of what an expression names.

ghost use Rattle.std.specs.Prelude.{◌≡◌, ◌≤◌, ◌<◌, ◌^◌, IfSome, is_some, option_map, slice_get, slice_index_or};
ghost use Rattle.lisa_tree.specs.Resources.{stage_at};
ghost use Rattle.lisa_tree.specs.Operations.{own_stage};
ghost use Rattle.lisa_tree.specs.Declarations.{is_reference};
ghost use Rattle.lisa_tree.specs.Meanings.{meaning};
ghost use Rattle.lisa_engine.specs.declared.parts.ArrayItem.{ArrayItem};
ghost use Rattle.moment_stores.specs.machine_parts.Parts.{arrays_of};
ghost use Rattle.typed_values.specs.Words.{truth, typed_word};
ghost use Rattle.scene_paths.specs.lisa_meaning.Scenes.{first_operation, home, is_label};
ghost use Rattle.scene_paths.specs.lisa_meaning.Values.{Below, boundary_value, declared_value, element_value, field_place, label_value, named_array, reader, resource_value, shaped, stage_before};
ghost use Rattle.scene_paths.specs.Parts.{part_trees};
ghost use Rattle.scene_paths.specs.Lookups.{array_of};
ghost use Rattle.scene_paths.specs.Paths.{first_link, links_of};
ghost use Rattle.scene_paths.specs.Sights.{form_of, scene_at};
ghost use Rattle.behavior_runs.specs.Views.{view_tree, label_on, moment_seen, named_value};

use crate::view::{Named, View};
use lisa_tree::{BoundaryField, Meaning, Resource, Shape, What};
use lisa_words::{Name, Word};
use scene_paths::{Array, Part, Path, home};
use typed_values::Value;

// Bits as a word of a type.
fn shaped(shape: Shape, bits: u64) -> Value
    requires least { 1 ≤ shape.width }
    requires most { shape.width ≤ 64 }
    requires fits { bits < 2 ^ shape.width }
    ensures { typed_word result ≡ shaped shape bits }
{
    Value {
        kind: shape.kind,
        word: Word {
            bits,
            width: shape.width,
        },
    }
}

// The value of a label, in the part that has it.
fn label_value(name: &Name, word: u64, part: Option<Part<'_>>) -> Value
    ensures { typed_word result ≡ label_value name.now word (part_trees part.entry) }
{
    match part {
        None => Value::truth(false),
        Some(part) => part.label(name, word),
    }
}

// The name is a label.
fn is_label(what: Option<What>) -> bool
    ensures { result ≡ is_label what }
{
    match what {
        Some(What::Label) => true,
        _ => false,
    }
}

// The name is only a reference.
fn is_reference(what: Option<What>) -> bool
    ensures { result ≡ is_reference what }
{
    match what {
        Some(What::Reference) => true,
        _ => false,
    }
}

fn stage_before(stage: Option<usize>) -> Option<usize>
    ensures { result ≡ stage_before stage }
{
    match stage {
        None => None,
        Some(stage) => stage.checked_sub(1),
    }
}

impl<'a> View<'a> {
    // A register or a pin by its number. A clocked register is read as the edge began.
    #[tactic(auto, using(crate::proofs::Reading::number_within, crate::proofs::Reading::register_least, crate::proofs::Reading::register_most, crate::proofs::Reading::clocked_least, crate::proofs::Reading::clocked_most, crate::proofs::Reading::pin_least, crate::proofs::Reading::pin_most, crate::proofs::Reading::register_fits, crate::proofs::Reading::clocked_fits, crate::proofs::Reading::pin_fits, crate::proofs::Reading::register_value, crate::proofs::Reading::clocked_value, crate::proofs::Reading::pin_value))]
    fn resource(&self, number: usize) -> Value
        ensures { typed_word result ≡ resource_value (view_tree self.now) (moment_seen self.now) number (slice_get (view_tree self.now).resources number) }
    {
        let described = self.sight.described();
        described.accepted();
        match described.resource(number) {
            Some(Resource::Register(_, shape, _, None)) => shaped(
                *shape,
                self.store.register(described.before(number).registers),
            ),
            Some(Resource::Clocked(_, shape, _)) => {
                shaped(*shape, self.store.kept(described.before(number).registers))
            }
            Some(Resource::Pin(shape, _)) => {
                shaped(*shape, self.store.pin(described.before(number).pins))
            }
            _ => Value::truth(false),
        }
    }

    #[tactic(auto, using(crate::proofs::Reading::element_read))]
    fn element_of(&self, index: u64, array: Option<Array>) -> Value
        requires { IfSome array (λ a. (item : ArrayItem) → (slice_index_or (arrays_of (view_tree self.now)) a.place item).width ≡ a.shape.width) }
        ensures { typed_word result ≡ element_value (moment_seen self.now) index (option_map array_of array) }
    {
        match array {
            None => Value::truth(false),
            Some(array) => shaped(
                array.shape,
                self.store.cell(array.place, array.index(index)),
            ),
        }
    }

    // An element of an array.
    pub(crate) fn element(&self, path: &Path<'_>, name: &Name, index: u64) -> Value
        ensures { typed_word result ≡ element_value (moment_seen self.now) index (named_array (view_tree self.now) (first_operation (links_of (view_tree self.now) (form_of self.now.sight) path.now)) name.now) }
    {
        let array = self
            .sight
            .described()
            .array(path.running(&self.sight), name);
        self.element_of(index, array)
    }

    // A field of the boundary behind a stage, as the edge began.
    #[tactic(auto, using(crate::proofs::Reading::field_least, crate::proofs::Reading::field_most, crate::proofs::Reading::field_read))]
    fn field(&self, stage: Option<usize>, field: Option<usize>) -> Value
        ensures { typed_word result ≡ boundary_value (view_tree self.now) (moment_seen self.now) stage field }
    {
        let described = self.sight.described();
        described.accepted();
        match (stage, field) {
            (Some(stage), Some(field)) => match described.shape_at(field) {
                None => Value::truth(false),
                Some(shape) => shaped(shape, self.store.field(stage, field)),
            },
            _ => Value::truth(false),
        }
    }

    // A field of the boundary before the own stage.
    pub(crate) fn input(&self, path: &Path<'_>, name: &Name) -> Value
        ensures { typed_word result ≡ boundary_value (view_tree self.now) (moment_seen self.now) (stage_before (own_stage (view_tree self.now) (first_operation (links_of (view_tree self.now) (form_of self.now.sight) path.now)))) (field_place (view_tree self.now) name.now) }
    {
        let described = self.sight.described();
        let stage = described.own_stage(path.running(&self.sight));
        self.field(stage_before(stage), described.field_place(name))
    }

    // A field of the boundary that is named.
    pub(crate) fn boundary(&self, field: &BoundaryField) -> Value
        ensures { typed_word result ≡ boundary_value (view_tree self.now) (moment_seen self.now) (stage_at (view_tree self.now) field.now.before) (field_place (view_tree self.now) field.now.field) }
    {
        let described = self.sight.described();
        self.field(
            described.stage_at(&field.before),
            described.field_place(&field.field),
        )
    }

    // Whether an instruction has the word.
    pub(crate) fn decoded(&self) -> Value
        ensures { typed_word result ≡ truth (is_some (form_of self.now.sight)) }
    {
        Value::truth(self.sight.is_decoded())
    }

    // A name that the operation of this path declares.
    fn declared<'p>(&self, home: Path<'p>, name: &Name) -> Named<'p>
        ensures { (below : Below) → named_value below self.now name.now result ≡ declared_value below (view_tree self.now) (scene_at self.now.sight home.entry) name.now (links_of (view_tree self.now) (form_of self.now.sight) home.entry) }
    {
        match home.here(&self.sight) {
            None => Named::Known(Value::truth(false)),
            Some(here) => {
                if is_label(self.sight.described().declared(here.operation, name)) {
                    Named::Known(label_value(name, self.sight.word(), here.part))
                } else {
                    Named::Child(home)
                }
            }
        }
    }

    // A name that is known from above.
    fn referred<'p>(&self, path: &Path<'p>, name: &Name) -> Named<'p>
        ensures { (below : Below) → named_value below self.now name.now result ≡ declared_value below (view_tree self.now) (scene_at self.now.sight path.now) name.now (home (view_tree self.now) name.now (links_of (view_tree self.now) (form_of self.now.sight) path.now)) }
    {
        match home(&self.sight, path, name) {
            None => Named::Known(Value::truth(false)),
            Some(home) => self.declared(home, name),
        }
    }

    // The value of a label of the operation that runs.
    fn label(&self, path: &Path<'_>, name: &Name) -> Value
        ensures { typed_word result ≡ label_on name.now self.now.sight.word (first_link (links_of (view_tree self.now) (form_of self.now.sight) path.now)) }
    {
        match path.here(&self.sight) {
            None => Value::truth(false),
            Some(here) => label_value(name, self.sight.word(), here.part),
        }
    }

    // A name that the operation that runs declares, by its number among all declared names.
    #[tactic(auto, using(crate::proofs::Names::label_met, crate::proofs::Names::child_met))]
    fn met<'p>(&self, path: &Path<'p>, entry: usize, name: &Name) -> Named<'p>
        requires { meaning (view_tree self.now) (first_operation (links_of (view_tree self.now) (form_of self.now.sight) path.now)) name.now ≡ Meaning.Declared entry }
        ensures { (below : Below) → named_value below self.now name.now result ≡ declared_value below (view_tree self.now) (scene_at self.now.sight path.now) name.now (home (view_tree self.now) name.now (links_of (view_tree self.now) (form_of self.now.sight) path.now)) }
    {
        let what = self.sight.described().what(entry);
        if is_label(what) {
            Named::Known(self.label(path, name))
        } else if is_reference(what) {
            self.referred(path, name)
        } else {
            Named::Child(*path)
        }
    }

    // What a name is. A local goes before all else.
    pub(crate) fn named<'p>(&self, path: &Path<'p>, name: &Name) -> Named<'p>
        ensures { (below : Below) → named_value below self.now name.now result ≡ (reader below (view_tree self.now) (scene_at self.now.sight path.now) (moment_seen self.now)).named name.now }
    {
        if let Some(value) = self.local(name) {
            return Named::Known(value);
        }
        let described = self.sight.described();
        match described.meaning(path.running(&self.sight), name) {
            Meaning::Nothing => Named::Known(Value::truth(false)),
            Meaning::Resource(number) => Named::Known(self.resource(number)),
            Meaning::Declared(entry) => self.met(path, entry, name),
        }
    }
}
