//! The extent of a datagram's fragments, kept so that a push needn't look at each of them.
ghost use Rattle.std.specs.Prelude.{◌≡◌, ◌≤◌, []};
ghost use Rattle.ip_defrag.specs.Extents.{extended, extent_of};

use crate::fragments::Fragment;

/// The extent of a datagram's held fragments.
#[derive(Clone, Copy)]
pub(crate) struct Extent {
    /// The number of bytes of data that they have.
    pub(crate) filled: usize,
    /// The highest place after the data of one of them.
    pub(crate) reach: usize,
    /// The place after the datagram's data, once a last fragment is held.
    pub(crate) end: Option<usize>,
}

impl Extent {
    /// The extent of no fragment.
    #[tactic(auto, unfolding(crate::specs::Extents::extent_of))]
    pub(crate) fn new() -> Extent
        ensures { result ≡ extent_of [] }
    {
        Extent {
            filled: 0,
            reach: 0,
            end: None,
        }
    }

    /// The extent with one more fragment.
    pub(crate) fn with(self, new: &Fragment) -> Extent
        requires { self.filled ≤ 65475 }
        ensures { result ≡ extended new.now self }
    {
        let (from, to) = (new.from(), new.to());
        let end = match self.end {
            None if new.is_last() => Some(to),
            end => end,
        };
        Extent {
            filled: self.filled + (to - from),
            reach: self.reach.max(to),
            end,
        }
    }
}
