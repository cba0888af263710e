//! What names may mean, and what stands above operations.

ghost use Rattle.std.specs.Prelude.{◌≡◌, ◌↔◌, ℕ, List, Some, true, slice_get};
ghost use Rattle.lisa_tree.specs.declared.tokens.Shape.{Shape};
ghost use Rattle.lisa_tree.specs.Descriptions.{DescriptionTree};
ghost use Rattle.lisa_tree.specs.Declarations.{Entry, entries, declared_at, plain_at, above};
ghost use Rattle.graph_paths.specs.Paths.{is_in};
ghost use Rattle.meant_declarations.specs.Meant.{MayMean};
ghost use Rattle.description_types.specs.Tables.{Known, AreKinds};
ghost use Rattle.lisa_machine.specs.Verdicts.{IsAccepted};
ghost use Rattle.lisa_machine.specs.Values.{IsOfType};
ghost use Rattle.lisa_machine.specs.Assigning.{IsAssignable, HasPlace};
ghost use Rattle.use_promises.specs.Meant.{ChoosesFrom};
ghost use Rattle.scene_promises.specs.Sharing.{Expresses};
ghost use Rattle.lisa_meaning.specs.Scenes.{Scene, running};
ghost use Rattle.meaning_promises.specs.Running.{Runs};
ghost use Rattle.scene_promises.specs.Homes.{HasHome};
ghost use Rattle.scene_promises.specs.Listings.{Lists};

/// In an accepted description all that a declared name may mean has the name's type, and may be assigned where the name may. So has, and may,
/// the EXPRESSION of each operation that the name may choose.
pub fn facts_go_along()
    ensures types { (d : DescriptionTree) → IsAccepted d → (known : Known) → AreKinds d known → (i j : ℕ) (s : Shape) → MayMean d i j → IsOfType known.types d i s → IsOfType known.types d j s }
    ensures assignables { (d : DescriptionTree) → IsAccepted d → (known : Known) → AreKinds d known → (i j : ℕ) → MayMean d i j → IsAssignable known.assignables d i → IsAssignable known.assignables d j }
    ensures expressions { (d : DescriptionTree) → IsAccepted d → (known : Known) → AreKinds d known → (i j c o : ℕ) (e : Entry) (s : Shape) → MayMean d i j → slice_get (entries d) j ≡ Some e → ChoosesFrom e c → is_in o (plain_at d c) ≡ true → IsOfType known.types d i s → Expresses known.types d o s }
    ensures places { (d : DescriptionTree) → IsAccepted d → (known : Known) → AreKinds d known → (i j c o : ℕ) (e : Entry) → MayMean d i j → slice_get (entries d) j ≡ Some e → ChoosesFrom e c → is_in o (plain_at d c) ≡ true → IsAssignable known.assignables d i → HasPlace known.assignables d o }
{}

/// Above an operation stand those that list it: in a group or as an instance, and no aliases.
pub fn above_lists()
    ensures { (d : DescriptionTree) (o p : ℕ) → (is_in p (above d o) ≡ true) ↔ Lists d p o }
{}

/// In an accepted description a name that is declared where something runs stands for what the nearest operation of the scene declares that
/// doesn't refer further up; and that is one of the declarations which the name may mean.
pub fn nearest_is_meant()
    ensures { (d : DescriptionTree) → IsAccepted d → (scene : Scene) → Runs d scene → (n : List ℕ) (i : ℕ) → declared_at d (running scene) n ≡ Some i → HasHome d scene n i }
{}
