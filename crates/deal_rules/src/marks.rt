//! What comes of a frame that is fed.

/// What comes of a frame that is fed to a group in which each member stands alone.
#[derive(Clone, Copy, Debug, PartialEq, Eq)]
pub enum Mark {
    /// Nothing arrives with it: it is a runt, or reassembly holds it or gave it up.
    Nothing,
    /// The filter refuses what arrives.
    Refused,
    /// A member is given what arrives.
    Given {
        /// The member, from 0.
        home: u16,
        /// The bytes of a block that it takes there.
        need: u32,
    },
}
