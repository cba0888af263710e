//! What fits where statements run.

ghost use Rattle.std.specs.Prelude.{ℕ, List};
ghost use Rattle.lisa_tree.specs.Statements.{StmtTree, StmtTrees};
ghost use Rattle.lisa_tree.specs.Descriptions.{DescriptionTree};
ghost use Rattle.lisa_engine.specs.Shape.{IsFitting};
ghost use Rattle.description_places.specs.Places.{places, all_places};
ghost use Rattle.description_places.specs.Scopes.{Scope};
ghost use Rattle.lisa_machine.specs.Verdicts.{IsAccepted};
ghost use Rattle.lisa_machine.specs.Freedom.{AllStand};
ghost use Rattle.machine_parts.specs.Parts.{pins_of};
ghost use Rattle.typed_values.specs.Effects.{effect, effects};
ghost use Rattle.lisa_meaning.specs.Effects.{run_behavior};
ghost use Rattle.lisa_meaning.specs.Moments.{Contents, Moment, begin_moment};
ghost use Rattle.lisa_meaning.specs.Scenes.{Scene, running};
ghost use Rattle.meaning_promises.specs.Fitting.{ContentsFit, ReadingsFit};
ghost use Rattle.meaning_promises.specs.Running.{doing_within};

/// What may be read fits its width as an edge begins, where what lasts and the pins do, and so it does behind each behaviour. In an accepted
/// description it fits behind each statement too, with the locals that are in scope there.
pub fn readings_fit()
    ensures begins { (d : DescriptionTree) (pins : List ℕ) (c : Contents) → ContentsFit d c → IsFitting (pins_of d) pins → ReadingsFit d (begin_moment d pins c) }
    ensures behaves { (d : DescriptionTree) (scene : Scene) (m : Moment) → ReadingsFit d m → ReadingsFit d (run_behavior d scene m) }
    ensures statements { (d : DescriptionTree) → IsAccepted d → (more : ℕ) (scene : Scene) (scope : Scope) (a : StmtTree) (m : Moment) → AllStand d (places (running scene) scope a) → ReadingsFit d m → ReadingsFit d (effect (doing_within more d scene) a m) }
    ensures bodies { (d : DescriptionTree) → IsAccepted d → (more : ℕ) (scene : Scene) (scope : Scope) (all : StmtTrees) (m : Moment) → AllStand d (all_places (running scene) scope all) → ReadingsFit d m → ReadingsFit d (effects (doing_within more d scene) all m) }
{}
