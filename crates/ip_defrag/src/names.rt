//! What the fragments of one datagram have in common.

/// The name of a datagram (RFC 791): its fragments have the same two addresses, protocol and
/// identification.
#[derive(Clone, Copy, PartialEq, Eq)]
pub(crate) struct Name {
    /// The source address, as a number.
    pub(crate) source: u32,
    /// The destination address, as a number.
    pub(crate) dest: u32,
    /// The protocol of the data.
    pub(crate) protocol: u8,
    /// The identification.
    pub(crate) ident: u16,
}
