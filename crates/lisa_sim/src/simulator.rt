//! The simulator of a description.

ghost use Rattle.std.specs.Prelude.{◌≡◌, ℕ, List, [], ◌∷◌, ◌++◌, Err, Some, None, IfOk, OnOk};
ghost use Rattle.lisa_tree.specs.Descriptions.{description_tree};
ghost use Rattle.lisa_engine.specs.Images.{IsImage, missing_memory};
ghost use Rattle.lisa_engine.specs.Machines.{machine_of};
ghost use Rattle.lisa_engine.specs.Shape.{IsFitting, IsShaped, AreEntries, HaveWidths, HaveDistinctNames};
ghost use Rattle.lisa_engine.specs.Touches.{Tracks};
ghost use Rattle.machine_parts.specs.Parts.{arrays_of, pins_of};
ghost use Rattle.item_promises.specs.lisa_forms.Parts.{AreFormsOf};
ghost use Rattle.item_promises.specs.lisa_forms.Codings.{IsCodingOf};
ghost use Rattle.behavior_runs.specs.scene_paths.Lookups.{tree_of};
ghost use Rattle.activation_plans.specs.lisa_meaning.States.{state_of};
ghost use Rattle.lisa_sim.specs.Seeing.{IsLastSeen};

use crate::runner::Runner;
use activation_plans::laws::states_are_shaped;
use item_promises::{Coding, Forms, Machine, shown_names_differ, shown_widths_fit};
use lisa_engine::{ArrayItem, Engine, Image, Item, MakeFault, Touch};
use pipeline_runs::Seen;
use std::alloc::Global;

/// A description that is run edge by edge. Its items, arrays and pins are the description's.
#[derive(Drop)]
pub struct Simulator<'a> {
    machine: &'a Machine,
    forms: &'a Forms,
    runner: Runner<'a>,
    ghost same_arrays: { arrays_of (description_tree machine.now) ≡ arrays_of (tree_of runner.described) },
    ghost same_pins: { pins_of (description_tree machine.now) ≡ pins_of (tree_of runner.described) },
    ghost sizes: { HaveWidths forms.now.items.items (arrays_of (tree_of runner.described)) (pins_of (tree_of runner.described)) },
    ghost names: { HaveDistinctNames forms.now.items.items (arrays_of (tree_of runner.described)) (pins_of (tree_of runner.described)) },
    ghost shapes: { (l : List (List ℕ)) → IsShaped forms.now.items.items (arrays_of (tree_of runner.described)) (state_of (tree_of runner.described) runner.image l) },
    ghost shape: { IsShaped forms.now.items.items (arrays_of (tree_of runner.described)) runner.present },
}

impl<'a> Simulator<'a> {
    ghost use Rattle.lisa_sim.specs.Simulators.{description_of, image_of};

    /// The simulator of a description after no edge. All the room that it needs is taken here.
    pub fn make(
        alloc: Global,
        machine: &'a Machine,
        forms: &'a Forms,
        coding: &'a Coding,
        image: &'a Image,
    ) -> Result<Simulator<'a>, MakeFault>
        requires forms { AreFormsOf (description_tree machine.now) forms.now }
        requires coding { IsCodingOf (description_tree machine.now) coding.now }
        requires image { IsImage image.now }
        ensures machine { IfOk result (λ s. ⟦<Simulator<'a> as Engine>⟧.machine s
            ≡ machine_of (pins_of (description_tree machine.now)) forms.now.items.items (arrays_of (description_tree machine.now))
            (state_of (description_tree machine.now) image.now)) }
        ensures first { IfOk result (λ s. ⟦<Simulator<'a> as Engine>⟧.present s ≡ state_of (description_tree machine.now) image.now []) }
        ensures description { IfOk result (λ s. description_of s ≡ description_tree machine.now) }
        ensures image { IfOk result (λ s. image_of s ≡ image.now) }
        ensures found { OnOk result (missing_memory (arrays_of (description_tree machine.now)) image.now ≡ None) }
        ensures missing { (name : List ℕ) → result ≡ Err (MakeFault.NoSuchMemory name) → missing_memory (arrays_of (description_tree machine.now)) image.now ≡ Some name }
    {
        machine.accepted();
        shown_names_differ();
        shown_widths_fit();
        states_are_shaped();
        let runner = Runner::make(alloc, machine, forms, coding, image)?;
        Ok(Simulator {
            machine,
            forms,
            runner,
        })
    }

    /// Makes an edge with these values of the pins, as `edge` does. Answers what each stage did in it.
    pub fn edge_seen(&mut self, pins: &[u64]) -> Seen
        requires { IsFitting (⟦<Simulator<'a> as Engine>⟧.machine self.old).pins pins.now }
        ensures seen { (l : List (List ℕ)) → ⟦<Simulator<'a> as Engine>⟧.present self.old ≡ (⟦<Simulator<'a> as Engine>⟧.machine self.old).defined l
            → IsLastSeen (description_of self.old) (image_of self.old) (l ++ pins.now ∷ []) result }
        ensures leads { (l : List (List ℕ)) → AreEntries (⟦<Simulator<'a> as Engine>⟧.machine self.old).pins l → ⟦<Simulator<'a> as Engine>⟧.present self.old ≡ (⟦<Simulator<'a> as Engine>⟧.machine self.old).defined l
            → ⟦<Simulator<'a> as Engine>⟧.present self.new ≡ (⟦<Simulator<'a> as Engine>⟧.machine self.new).defined (l ++ pins.now ∷ []) }
        ensures touches { Tracks (⟦<Simulator<'a> as Engine>⟧.machine self.old).arrays (⟦<Simulator<'a> as Engine>⟧.present self.old).cells (⟦<Simulator<'a> as Engine>⟧.present self.new).cells (⟦<Simulator<'a> as Engine>⟧.touch_list self.new) }
        ensures machine { ⟦<Simulator<'a> as Engine>⟧.machine self.new ≡ ⟦<Simulator<'a> as Engine>⟧.machine self.old }
        ensures description { description_of self.new ≡ description_of self.old }
        ensures image { image_of self.new ≡ image_of self.old }
    {
        self.runner.reached();
        self.runner.edge_seen(pins)
    }
}

impl<'a> Engine for Simulator<'a> {
    ghost machine = { λ s. machine_of (pins_of (tree_of s.runner.described)) s.forms.now.items.items (arrays_of (tree_of s.runner.described))
        (state_of (tree_of s.runner.described) s.runner.image) };

    ghost present = { λ s. s.runner.present };

    ghost touch_list = { λ s. s.runner.touches };

    fn items(&self) -> &[Item] {
        self.forms.items()
    }

    fn arrays(&self) -> &[ArrayItem] {
        self.machine.arrays()
    }

    fn pins(&self) -> &[Item] {
        self.machine.pins()
    }

    fn value(&self, item: usize) -> u64 {
        self.runner.value(item)
    }

    fn cell(&self, array: usize, index: usize) -> u64 {
        self.runner.cell(array, index)
    }

    fn edge(&mut self, pins: &[u64]) {
        self.runner.reached();
        self.runner.edge(pins);
    }

    fn touched(&self) -> &[Touch] {
        self.runner.touches()
    }

    fn restart(&mut self) {
        self.runner.restart();
    }

    fn retreat(&mut self, items: &[u64], touches: &[Touch]) {
        self.runner.retreat(items, touches);
    }

    ghost shaped = { λ s. s.shape };

    ghost defined_shaped = { λ s l _. s.shapes l };

    ghost sized = { λ s. s.sizes };

    ghost named = { λ s. s.names };
}
