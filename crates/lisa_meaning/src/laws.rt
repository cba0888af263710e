//! Laws on the meaning of descriptions. Each is the contract of a function that does nothing.

ghost use Rattle.std.specs.Prelude.{◌≡◌, ℕ, List, Option, None};
ghost use Rattle.lisa_tree.specs.Descriptions.{DescriptionTree};
ghost use Rattle.lisa_engine.specs.Memory.{Memory};
ghost use Rattle.lisa_engine.specs.Images.{IsImage, missing_memory};
ghost use Rattle.lisa_engine.specs.Shape.{IsShaped};
ghost use Rattle.lisa_forms.specs.Verdicts.{HasForms};
ghost use Rattle.use_promises.specs.lisa_machine.Verdicts.{IsAccepted};
ghost use Rattle.use_promises.specs.machine_parts.Parts.{arrays_of};
ghost use Rattle.lisa_forms.specs.instruction_forms.Widths.{HasWidth};
ghost use Rattle.lisa_forms.specs.description_sizes.Sizes.{items};
ghost use Rattle.lisa_forms.specs.declared.coding.Coding.{Coding};
ghost use Rattle.lisa_forms.specs.Codings.{IsCodingOf, IsDecodedAs};
ghost use Rattle.pipeline_time.specs.Laws.{
  UnchosenDoNothing,
  SameLevelRunsAtOnce,
  OtherLevelIsRecorded,
  OneBranchRuns,
};
ghost use Rattle.pipeline_time.specs.Sound.{IsSound};
ghost use Rattle.lisa_meaning.specs.Scenes.{form_with};
ghost use Rattle.lisa_meaning.specs.Cores.{core_of};
ghost use Rattle.lisa_meaning.specs.States.{state_of};
ghost use Rattle.lisa_meaning.specs.Showing.{EdgesHaveItems, ItemsShowAll};
ghost use Rattle.lisa_meaning.specs.Laws.{TreesAreOccurrences, LevelsGoForward, InstructionsChoose, PastIsInside, RootIsOne, ControlsGoBack, ControlsAreAdded, OccurrencesEnd};

/// Items run in listed order: one that the word's instruction doesn't choose does nothing, one of its activator's stage or of none runs at
/// once, one of a later stage is recorded, and of an `if` the items of one branch run.
pub fn items_run_in_order()
    ensures unchosen { (d : DescriptionTree) → UnchosenDoNothing (core_of d) }
    ensures same { (d : DescriptionTree) → SameLevelRunsAtOnce (core_of d) }
    ensures other { (d : DescriptionTree) → OtherLevelIsRecorded (core_of d) }
    ensures branch { (d : DescriptionTree) → OneBranchRuns (core_of d) }
{}

/// The nodes of the tree on which an accepted description's time runs are its occurrences: in their order, with their numbers, stages and
/// activators' stages.
pub fn trees_are_occurrences()
    ensures { (d : DescriptionTree) → IsAccepted d → TreesAreOccurrences d }
{}

/// No occurrence of an accepted description runs in an earlier stage than its activator, and each runs in one of the pipeline's stages or in
/// none.
pub fn levels_go_forward()
    ensures { (d : DescriptionTree) → IsAccepted d → LevelsGoForward d }
{}

/// Of the occurrences past the root a word chooses none unless an instruction has the word.
pub fn instructions_choose()
    ensures { (d : DescriptionTree) → IsAccepted d → InstructionsChoose d }
{}

/// What is past the root is activated by the root, or by what is past it.
pub fn past_is_inside()
    ensures { (d : DescriptionTree) → PastIsInside d }
{}

/// An accepted description with forms has one occurrence of the root at most. Where it has one and a pipeline, that one's stage is the root's.
pub fn root_is_one()
    ensures { (d : DescriptionTree) → IsAccepted d → HasForms d → RootIsOne (core_of d) }
{}

/// A behaviour only adds to the stages that are stalled, and to those that are flushed.
pub fn controls_are_added()
    ensures { (d : DescriptionTree) → ControlsAreAdded d }
{}

/// In an accepted description the behaviour of an occurrence stalls and flushes only stages before the one in which it runs, whatever it calls.
pub fn controls_go_back()
    ensures { (d : DescriptionTree) → IsAccepted d → ControlsGoBack d }
{}

/// An accepted description with forms has all that time asks of it, and so all laws of `pipeline_time` hold of it.
pub fn cores_are_sound()
    ensures { (d : DescriptionTree) → IsAccepted d → HasForms d → IsSound (core_of d) }
{}

/// In an accepted description calls and children on the scene of an occurrence have no more levels than are allowed: more levels change nothing
/// of what is read, assigned and run there.
pub fn levels_suffice()
    ensures { (d : DescriptionTree) → IsAccepted d → OccurrencesEnd d }
{}

/// A word is decoded as the first plain form that has it, so no other plain form has it.
pub fn words_are_decoded_once()
    ensures { (d : DescriptionTree) (c : Coding) (word : ℕ) (found : Option ℕ) → IsCodingOf d c → IsDecodedAs d word found → found ≡ form_with d word }
{}

/// After any edges, whatever the values of their pins, the state has one value for each item and for each cell of each array, within its
/// width.
pub fn states_are_shaped()
    ensures { (d : DescriptionTree) (width : Option ℕ) (image : List Memory) (entries : List (List ℕ)) → IsAccepted d → HasWidth d width → IsImage image → missing_memory (arrays_of d) image ≡ None → IsShaped (items d width) (arrays_of d) (state_of d image entries) }
{}

/// After any edges there are as many registers and fields as items of them, and each bit that is set and each word that isn't 0 has an item.
pub fn edges_have_items()
    ensures { (d : DescriptionTree) → IsAccepted d → IsSound (core_of d) → EdgesHaveItems d }
{}

/// Items and cells show all of such a state: two that show the same are the same.
pub fn items_show_all()
    ensures { (d : DescriptionTree) → ItemsShowAll d }
{}
