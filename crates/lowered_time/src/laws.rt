//! What the steps of an edge make. Each is the contract of a function that does nothing.

ghost use Rattle.step_program.specs.Programs.{Program};
ghost use Rattle.pipeline_time.specs.Cores.{Core};
ghost use Rattle.pipeline_time.specs.Sound.{IsSound};
ghost use Rattle.lowered_time.specs.Building.{Operations, Layout, edge};
ghost use Rattle.lowered_time.specs.Lowering.{Meant, IsLaidOut, IsOwned};
ghost use Rattle.lowered_time.specs.Laws.{MakesEdges, EdgesAreMade, StatesAreMade};
ghost use Rattle.lowered_time.specs.Forming.{AreFormed};
ghost use Rattle.step_pieces.specs.Formed.{Lies, IsPiece};

/// The program's state after an edge shows what the core has after it, where it did before.
pub fn edges_are_made<R, M, A, B, C, D, E>()
    ensures edge { (core : Core R M) (ops : Operations) (layout : Layout) (p : Program) (meant : Meant R M A B C D E) → IsSound core → MakesEdges core ops layout p meant → EdgesAreMade core ops layout p meant }
    ensures states { (core : Core R M) (ops : Operations) (layout : Layout) (p : Program) (meant : Meant R M A B C D E) → IsSound core → MakesEdges core ops layout p meant → StatesAreMade core ops layout p meant }
{}

/// The steps of an edge are well formed where those of its parts are, in each program in which their temps lie.
pub fn edges_are_formed<R, M>()
    ensures { (core : Core R M) (ops : Operations) (layout : Layout) (p : Program) → IsSound core → IsOwned 0 core.acts → IsLaidOut core layout p → AreFormed core ops layout p → Lies p.temps layout.lasting (edge core ops layout layout.lasting).widths → IsPiece p (edge core ops layout layout.lasting) }
{}
