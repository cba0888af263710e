//! What holds of the parts of a description. Each law is the contract of a function that does nothing, or calls laws.
ghost use Rattle.std.specs.Prelude.{ℕ, Option};
ghost use Rattle.lisa_tree.specs.Descriptions.{DescriptionTree};
ghost use Rattle.description_types.specs.Types.{Types};
ghost use Rattle.step_program.specs.Programs.{Program};
ghost use Rattle.lowered_edges.specs.Laws.{ScenesStand, PartsAreLowered, PartsAreFormed, ProgramsAreArranged, ProgramsMakeEdges, ProgramsBegin, ProgramsShowStates, ProgramsAreFormed};

use program_declarations::shown_is_declared;

/// The standpoint of an occurrence has the operations of its scene, each as the part of forms that it is there.
pub fn scenes_stand()
    ensures { (d : DescriptionTree) (types : Types) (width : ℕ) → ScenesStand d types width }
{}

/// The parts of an accepted description do what time asks of them, and are well formed.
pub fn parts_are_lowered()
    ensures lowered { (d : DescriptionTree) (types : Types) (declared : Option ℕ) (width : ℕ) (p : Program) → PartsAreLowered d types declared width p }
    ensures formed { (d : DescriptionTree) (types : Types) (declared : Option ℕ) (width : ℕ) (p : Program) → PartsAreFormed d types declared width p }
{}

/// The program of a description is arranged for it, and makes its edges.
pub fn programs_make_edges()
    ensures arranged { (d : DescriptionTree) (types : Types) (declared : Option ℕ) → ProgramsAreArranged d types declared }
    ensures made { (d : DescriptionTree) (types : Types) (declared : Option ℕ) → ProgramsMakeEdges d types declared }
{}

/// It holds first what the description's hardware has, and after any edges its state is the description's.
pub fn programs_show_states()
    ensures first { (d : DescriptionTree) (types : Types) (declared : Option ℕ) → ProgramsBegin d types declared }
    ensures states { (d : DescriptionTree) (types : Types) (declared : Option ℕ) → ProgramsShowStates d types declared }
{}

/// Its steps are well formed, and not deep; and so is all of it, where its description is spelled.
pub fn programs_are_formed()
    ensures { (d : DescriptionTree) (types : Types) (declared : Option ℕ) → ProgramsAreFormed d types declared }
{
    shown_is_declared();
}
