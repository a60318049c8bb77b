//! The frames that a send takes out of a ring.
ghost use Rattle.std.specs.Prelude.{◌≡◌, ◌^◌, ◌<◌, ◌≤◌, ◌++◌, ℕ, IfOk, IfSome, List, length};
ghost use Rattle.frame_view.specs.PlainPacket.{plain_of};
ghost use Rattle.tx_ring.specs.Outgoing.{Holds};

use frame_view::{ByteList, Memory, Packet, Piece};
use std::alloc::Global;

/// Frames that become packets one after another.
#[derive(Drop)]
pub(super) struct Outgoing {
    /// The bytes of all of them, one frame after another. Without it each packet has memory of its
    /// own.
    piece: Option<Piece>,
    /// The place in it where the next one begins.
    from: u32,
}

impl Outgoing {
    /// The frames in a piece, if there is one.
    pub(super) fn new(piece: Option<Piece>) -> Outgoing
        requires { IfSome piece (λ bytes. length bytes < 2 ^ 32) }
        ensures { (bytes : List ℕ) → IfSome piece (λ all. all ≡ bytes) → Holds result bytes }
    {
        Outgoing { piece, from: 0 }
    }

    /// The packet of the next frame, which is this one.
    pub(super) fn next_packet(&mut self, alloc: Global, frame: &[u8]) -> Result<Packet, Memory>
        requires whole { 14 ≤ length frame.now }
        requires short { length frame.now < 2 ^ 32 }
        requires next { (rest : List ℕ) × Holds self.old (frame.now ++ rest) }
        ensures packet { IfOk result (λ packet. packet ≡ plain_of frame.now) }
        ensures rest { (rest : List ℕ) → Holds self.old (frame.now ++ rest)
            → IfOk result (λ _. Holds self.new rest) }
    {
        Ok(Packet::plain(self.next_bytes(alloc, frame)?))
    }

    /// The bytes of the next frame, which is this one.
    fn next_bytes(&mut self, alloc: Global, frame: &[u8]) -> Result<ByteList, Memory>
        requires some { 0 < length frame.now }
        requires short { length frame.now < 2 ^ 32 }
        requires next { (rest : List ℕ) × Holds self.old (frame.now ++ rest) }
        ensures bytes { IfOk result (λ bytes. bytes ≡ frame.now) }
        ensures rest { (rest : List ℕ) → Holds self.old (frame.now ++ rest)
            → IfOk result (λ _. Holds self.new rest) }
    {
        match &self.piece {
            Some(piece) => {
                let count = frame.len() as u32;
                let part = piece.part(alloc, self.from, count)?;
                self.from += count;
                Ok(part)
            }
            None => Ok(ByteList::from_vec(Vec::from_slice(alloc, frame)?)),
        }
    }
}
