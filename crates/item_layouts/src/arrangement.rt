//! What tells how many items there are of each kind.

ghost use Rattle.std.specs.Prelude.{◌≡◌, ◌<◌};
ghost use Rattle.item_layouts.specs.Layouts.{Layout};

/// A layout in code: it tells the counts of the layout, and where bits stand.
pub trait Arrangement {
    ghost layout: { Self → Layout };

    fn registers(&self) -> u32
        ensures { result ≡ (layout self.now).registers };

    fn stages(&self) -> u8
        ensures { result ≡ (layout self.now).stages };

    /// How many fields each boundary has.
    fn fields(&self) -> u32
        ensures { result ≡ (layout self.now).fields };

    /// The first stage with a word.
    fn first_word(&self) -> Option<u8>
        ensures { result ≡ (layout self.now).words };

    fn occurrences(&self) -> u32
        ensures { result ≡ (layout self.now).occurrences };

    /// Whether an occurrence may stand in a stage.
    fn stands(&self, stage: u8, occurrence: u32) -> bool
        requires { occurrence < (layout self.now).occurrences }
        ensures { result ≡ (layout self.now).stands stage occurrence };
}
