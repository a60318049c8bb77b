//! The frames that are made from a number.
ghost use Rattle.std.specs.Prelude.{◌≡◌};
ghost use Rattle.setup_text.specs.Values.{made_in};

use crate::SetupKind;
use crate::values::{any_number, count_to};

/// The most frames that are made, by this project's own choice.
const MOST_MADE: u32 = 20_000;

/// What a setup says about the frames that are made.
#[derive(Clone, Copy)]
pub(crate) struct MadeFrames {
    /// The number that they are made from.
    pub(crate) seed: u32,
    /// How many there are, 1 to 20,000.
    pub(crate) count: u32,
}

impl MadeFrames {
    /// What two words say about the frames.
    pub(crate) fn read(seed: &[u8], count: &[u8]) -> Result<MadeFrames, SetupKind>
        ensures { result ≡ made_in seed.now count.now }
    {
        let seed = any_number(seed)?;
        let count = count_to(MOST_MADE, count)?;
        Ok(MadeFrames { seed, count })
    }
}
