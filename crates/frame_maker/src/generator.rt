//! A generator of numbers that a seed determines.
ghost use Rattle.std.specs.Prelude.{◌≡◌};
ghost use Rattle.frame_maker.specs.Made.{next_state, drawn};

/// A linear congruential generator modulo 2^64, with the multiplier and the increment of Knuth's
/// MMIX.
#[derive(Drop)]
pub(crate) struct Generator {
    /// The state, at first the seed.
    pub state: u64,
}

impl Generator {
    /// Draws a number: the upper half of the next state.
    pub fn draw(&mut self) -> u32
        ensures value { result ≡ drawn self.old.state }
        ensures state { self.new.state ≡ next_state self.old.state }
    {
        self.state = self
            .state
            .wrapping_mul(6364136223846793005)
            .wrapping_add(1442695040888963407);
        (self.state >> 32) as u32
    }
}
