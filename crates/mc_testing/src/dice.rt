//! Random-looking numbers that are the same in each run.

ghost use Rattle.std.specs.Prelude.{◌≤◌, ◌<◌};

/// Numbers that look random and are the same in each run.
#[derive(Clone, Copy, Debug)]
pub struct Dice {
    state: u64,
}

impl Dice {
    /// Returns dice whose rolls follow from the seed.
    pub fn new(seed: u64) -> Dice {
        Dice { state: seed }
    }

    /// Returns a number below `sides`, which must be at least 1.
    pub fn roll(&mut self, sides: u64) -> u64
        requires { 1 ≤ sides }
        ensures { result < sides }
    {
        self.state = self
            .state
            .wrapping_mul(6364136223846793005)
            .wrapping_add(1442695040888963407);
        (self.state >> 33) % sides
    }
}
