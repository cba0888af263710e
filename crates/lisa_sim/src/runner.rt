//! A machine that is described, with all that runs it.

ghost use Rattle.std.specs.Prelude.{◌≡◌, ◌<◌, ℕ, List, [], ◌∷◌, ◌++◌, Err, Some, None, IfOk, OnOk, length, slice_index};
ghost use Rattle.lisa_tree.specs.Descriptions.{description_tree};
ghost use Rattle.lisa_engine.specs.Images.{IsImage, missing_memory};
ghost use Rattle.lisa_engine.specs.Shape.{IsFitting};
ghost use Rattle.lisa_engine.specs.State.{cells_of};
ghost use Rattle.lisa_engine.specs.Touches.{Tracks};
ghost use Rattle.machine_parts.specs.Parts.{arrays_of, pins_of};
ghost use Rattle.item_promises.specs.lisa_forms.Parts.{AreFormsOf};
ghost use Rattle.item_promises.specs.lisa_forms.Codings.{IsCodingOf};
ghost use Rattle.behavior_runs.specs.scene_paths.Lookups.{tree_of};
ghost use Rattle.activation_plans.specs.lisa_meaning.States.{state_of};
ghost use Rattle.lisa_sim.specs.Runnings.{IsBefore};
ghost use Rattle.lisa_sim.specs.Seeing.{IsLastSeen};

use crate::body::Body;
use crate::parts::{Parts, make_parts, make_pipeline};
use crate::states::{restart, retreat};
use activation_plans::laws::{
    cores_are_sound, edges_have_items, items_show_all, trees_are_occurrences,
};
use item_layouts::ItemPlace;
use item_promises::{Coding, Forms, Machine, sizes_are_limited};
use lisa_engine::{Image, MakeFault, Touch};
use pipeline_runs::{Pipeline, Plan, Seen};
use pipeline_states::{all_is_shown, edges_are_shown};
use std::alloc::Global;
use std::marker::Model;

/// A machine with the plan of its pipeline, the places of its items, and its state.
#[derive(Drop)]
pub(crate) struct Runner<'a> {
    plan: Plan,
    places: Vec<ItemPlace>,
    pipeline: Pipeline<Body<'a>>,
}

impl<'a> Model for Runner<'a> {
    ghost use Rattle.std.specs.Coded.{codes};
    ghost use Rattle.lisa_tree.specs.contracts.descriptions.Act as act;
    ghost use Rattle.lisa_tree.specs.contracts.expressions.Expr as expression;
    ghost use Rattle.lisa_tree.specs.contracts.statements.Stmt as statement;
    ghost use Rattle.behavior_runs.specs.scene_paths.Lookups.{tree_of};
    ghost use Rattle.pipeline_states.specs.Showing.{state_in};
    ghost use Rattle.lisa_sim.specs.Bodies.{lasting_of};
    ghost use Rattle.lisa_sim.specs.Runnings.{IsRunning, Running};

    ghost Value = { Running };

    ghost coded = { Prim.hlevel (codes, act.the_row.coded, expression.the_row.coded, statement.the_row.coded) };

    ghost view = { λ r. record { described = r.pipeline.edge.store.described; image = r.pipeline.edge.store.image; present = state_in r.places.items (lasting_of r.pipeline.edge.store) r.pipeline.edge.queues r.pipeline.words; touches = r.pipeline.edge.store.touches } };

    ghost invariant = { λ r. IsRunning (tree_of r.pipeline.edge.store.described) r.pipeline.edge.store.image r.plan r.places.items (lasting_of r.pipeline.edge.store) r.pipeline.edge.queues r.pipeline.words };
}

impl<'a> Runner<'a> {
    // The machine before any edge. All the room that it needs is taken here.
    pub(crate) fn make(
        alloc: Global,
        machine: &'a Machine,
        forms: &'a Forms,
        coding: &'a Coding,
        image: &'a Image,
    ) -> Result<Runner<'a>, MakeFault>
        requires forms { AreFormsOf (description_tree machine.now) forms.now }
        requires coding { IsCodingOf (description_tree machine.now) coding.now }
        requires image { IsImage image.now }
        ensures tree { IfOk result (λ r. tree_of r.described ≡ description_tree machine.now) }
        ensures image { IfOk result (λ r. r.image ≡ image.now) }
        ensures first { IfOk result (λ r. r.present ≡ state_of (description_tree machine.now) image.now []) }
        ensures found { OnOk result (missing_memory (arrays_of (description_tree machine.now)) image.now ≡ None) }
        ensures missing { (name : List ℕ) → result ≡ Err (MakeFault.NoSuchMemory name) → missing_memory (arrays_of (description_tree machine.now)) image.now ≡ Some name }
    {
        machine.accepted();
        sizes_are_limited();
        cores_are_sound();
        trees_are_occurrences();
        let Ok(parts) = make_parts(alloc, machine, forms, coding) else {
            return Err(MakeFault::NoMemory);
        };
        let Parts {
            plan,
            places,
            chooser,
            room,
        } = parts;
        let pipeline = make_pipeline(alloc, machine, image, &plan, chooser, room)?;
        Ok(Runner {
            plan,
            places,
            pipeline,
        })
    }

    // The value of an item.
    pub(crate) fn value(&self, item: usize) -> u64
        requires { item < length self.now.present.items }
        ensures { result ≡ slice_index self.now.present.items item }
    {
        let body = &self.pipeline.edge.store;
        match self.places[item] {
            ItemPlace::Register(register) => body.register(register as usize),
            ItemPlace::Field(boundary, field) => body.field(boundary as usize, field as usize),
            ItemPlace::Word(stage) => self.pipeline.words[stage as usize],
            ItemPlace::Bit(stage, occurrence) => {
                u64::from(
                    self.pipeline
                        .edge
                        .queues
                        .stands(u32::from(stage), occurrence),
                )
            }
        }
    }

    // The value of a cell.
    pub(crate) fn cell(&self, array: usize, index: usize) -> u64
        ensures { result ≡ slice_index (cells_of self.now.present array) index }
    {
        self.pipeline.edge.store.cell(array, index)
    }

    // The cells that the last edge wrote.
    pub(crate) fn touches(&self) -> &[Touch]
        ensures { result.now ≡ self.now.touches }
    {
        self.pipeline.edge.store.touches()
    }

    // Some edges lead to its state.
    pub(crate) fn reached(&self)
        ensures { (entries : List (List ℕ)) × (self.now.present ≡ state_of (tree_of self.now.described) self.now.image entries) }
    {
        let _plan = &self.plan;
    }

    // Makes an edge with these values of the pins.
    pub(crate) fn edge(&mut self, pins: &[u64])
        requires { IsFitting (pins_of (tree_of self.old.described)) pins.now }
        ensures leads { (l : List (List ℕ)) → self.old.present ≡ state_of (tree_of self.old.described) self.old.image l → self.new.present ≡ state_of (tree_of self.old.described) self.old.image (l ++ pins.now ∷ []) }
        ensures touches { Tracks (arrays_of (tree_of self.old.described)) self.old.present.cells self.new.present.cells self.new.touches }
        ensures described { self.new.described ≡ self.old.described }
        ensures image { self.new.image ≡ self.old.image }
    {
        edges_have_items();
        items_show_all();
        edges_are_shown();
        self.pipeline.run_edge(&self.plan, pins);
        let _touches = self.pipeline.edge.store.touches();
    }

    // Makes an edge with these values of the pins. Answers what each stage did in it.
    pub(crate) fn edge_seen(&mut self, pins: &[u64]) -> Seen
        requires { IsFitting (pins_of (tree_of self.old.described)) pins.now }
        ensures seen { (l : List (List ℕ)) → self.old.present ≡ state_of (tree_of self.old.described) self.old.image l → IsLastSeen (tree_of self.old.described) self.old.image (l ++ pins.now ∷ []) result }
        ensures leads { (l : List (List ℕ)) → self.old.present ≡ state_of (tree_of self.old.described) self.old.image l → self.new.present ≡ state_of (tree_of self.old.described) self.old.image (l ++ pins.now ∷ []) }
        ensures touches { Tracks (arrays_of (tree_of self.old.described)) self.old.present.cells self.new.present.cells self.new.touches }
        ensures described { self.new.described ≡ self.old.described }
        ensures image { self.new.image ≡ self.old.image }
    {
        edges_have_items();
        items_show_all();
        all_is_shown();
        edges_are_shown();
        let seen = self.pipeline.run_edge_seen(&self.plan, pins);
        let _touches = self.pipeline.edge.store.touches();
        seen
    }

    // Goes to the state before any edge.
    pub(crate) fn restart(&mut self)
        ensures first { self.new.present ≡ state_of (tree_of self.old.described) self.old.image [] }
        ensures touches { self.new.touches ≡ [] }
        ensures described { self.new.described ≡ self.old.described }
        ensures image { self.new.image ≡ self.old.image }
    {
        restart(&mut self.pipeline, &self.plan);
    }

    // Goes to the state of which these are the items and, put back, the cells.
    pub(crate) fn retreat(&mut self, items: &[u64], touches: &[Touch])
        requires { (entries : List (List ℕ)) × IsBefore (tree_of self.old.described) self.old.image self.old.present.cells items.now touches.now entries }
        ensures back { (entries : List (List ℕ)) → IsBefore (tree_of self.old.described) self.old.image self.old.present.cells items.now touches.now entries → self.new.present ≡ state_of (tree_of self.old.described) self.old.image entries }
        ensures touches { self.new.touches ≡ [] }
        ensures described { self.new.described ≡ self.old.described }
        ensures image { self.new.image ≡ self.old.image }
    {
        retreat(&mut self.pipeline, &self.plan, &self.places, items, touches);
    }
}
