// Which calls of a fake fail.
ghost use Rattle.std.specs.Prelude.{◌≡◌, ◌↔◌, ◌+◌, ◌-◌, ◌^◌, Contains, IsTrue, min};

// The numbers of the calls that are to fail, counted from 1, and how many there were.
#[derive(Drop)]
pub struct Calls {
    failing: Vec<u64>,
    made: u64,
}

impl Calls {
    pub fn new(failing: Vec<u64>) -> Calls
        ensures { result ≡ record { failing = failing; made = 0 } }
    {
        Calls { failing, made: 0 }
    }

    // Counts a call, and tells whether it is to fail.
    pub fn fails(&mut self) -> bool
        ensures fails { IsTrue result ↔ Contains self.old.failing.items self.new.made }
        ensures counted { self.new.made ≡ min (self.old.made + 1) (2 ^ 64 - 1) }
        ensures failing { self.new.failing ≡ self.old.failing }
    {
        self.made = self.made.saturating_add(1);
        self.failing.contains(&self.made)
    }
}
