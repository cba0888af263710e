//! What holds of runs on a board.
ghost use Rattle.std.specs.Prelude.{◌≡◌, ◌<◌, ℕ, List, All, length};
ghost use Rattle.lisa_engine.specs.Shape.{IsWidth};
ghost use Rattle.lisa_engine.specs.Machines.{Machine};
ghost use Rattle.lisa_board.specs.Boards.{Devices, IsBoardFor};
ghost use Rattle.lisa_board.specs.Runs.{fed_entries, output, AreFed, AreAlike};

/// The entries of a run are the one list in which each entry is what the board feeds after the rows before it. A law: the function does nothing.
pub fn entries_are_unique()
    ensures count { (m : Machine) (board : Devices) (input : List ℕ) (n : ℕ) → length (fed_entries m board input n) ≡ n }
    ensures fed { (m : Machine) (board : Devices) (input : List ℕ) (n : ℕ) → AreFed m board input (fed_entries m board input n) }
    ensures only { (m : Machine) (board : Devices) (input : List ℕ) (entries : List (List ℕ)) → AreFed m board input entries → entries ≡ fed_entries m board input (length entries) }
{}

/// A board prints the same over two machines whose items always have the same values. A law: the function does nothing.
pub fn boards_print_alike()
    ensures { (m n : Machine) (board : Devices) (input : List ℕ) → AreAlike m n → IsBoardFor m.items m.pins board → All (λ pin. IsWidth pin.width) m.pins
        → All (λ byte. byte < 256) input → (count : ℕ) → output m board input count ≡ output n board input count }
{}
