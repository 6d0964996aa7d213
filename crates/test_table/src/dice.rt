//! Numbers that look random.

ghost use Rattle.std.specs.Prelude.{◌<◌, ◌≤◌};

/// Numbers that look random, the same for the same seed: the upper 16 bits of a linear congruential generator.
#[derive(Drop)]
pub struct Dice {
    last: u64,
}

impl Dice {
    /// Dice that throw the numbers of a seed.
    pub fn new(seed: u64) -> Dice {
        Dice { last: seed }
    }

    /// A number below 2^16.
    pub fn throw(&mut self) -> u32
        ensures { result < 65536 }
    {
        self.last = self
            .last
            .wrapping_mul(6364136223846793005)
            .wrapping_add(1442695040888963407);
        (self.last >> 48) as u32
    }

    /// A number below `count`, which is at least 1. It is below 2^16, too.
    pub fn below(&mut self, count: u32) -> u32
        requires { 1 ≤ count }
        ensures { result < count }
    {
        self.throw() % count
    }
}
