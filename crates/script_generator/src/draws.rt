//! Numbers drawn one after another.

ghost use Rattle.std.specs.Prelude.{◌≡◌, ◌<◌};
ghost use Rattle.script_generator.specs.Draws.{given, next};

/// A generator of numbers: the linear congruential one with Knuth's constants.
#[derive(Drop)]
pub(crate) struct Draws {
    /// The number that it keeps.
    pub(crate) kept: u64,
}

impl Draws {
    /// Draws one of `count` numbers from 0 on.
    #[tactic(auto, unfolding(crate::specs::Draws::given))]
    pub(crate) fn next(&mut self, count: u32) -> u32
        requires { 0 < count }
        ensures kept { self.new.kept ≡ next self.old.kept }
        ensures value { result ≡ given self.new.kept count }
        ensures within { result < count }
    {
        self.step();
        ((self.kept >> 33) % u64::from(count)) as u32
    }

    // The number that it keeps next.
    fn step(&mut self)
        ensures { self.new.kept ≡ next self.old.kept }
    {
        self.kept = self
            .kept
            .wrapping_mul(6364136223846793005)
            .wrapping_add(1442695040888963407);
    }
}
