//! Bytes: a list with memory of its own, or a part of a piece that many lists share.
ghost use Rattle.std.specs.Prelude.{◌≡◌, ◌+◌, ◌^◌, ◌<◌, ◌≤◌, ◌↔◌, [], ◌∷◌, ◌++◌, length, take};
ghost use Rattle.std.specs.Prelude.{drop, slice_get, IfOk, IsTrue, OnOk, OnErr, option_copied};
ghost use Rattle.frame_view.specs.Tags.{is_tagged};

use crate::Memory;
use crate::vlan::begins_tagged;
use std::alloc::Global;
use std::marker::Model;
use std::sync::Arc;

/// The most bytes that are read or saved at once: this project's own choice.
pub const PIECE: usize = 65_536;

/// Bytes, in order. Contracts see them as a list. A list has memory of its own, or is a part of a
/// `Piece`, whose memory lives as long as any of its parts.
#[derive(Debug, Drop)]
pub struct ByteList {
    form: ByteForm,
}

/// Where the bytes of a list are.
#[derive(Debug, Drop)]
enum ByteForm {
    /// In memory of the list's own.
    Own(Vec<u8>),
    /// In a piece that others share. They don't begin with a VLAN tag, so that `untag` has to move
    /// the bytes of no other list.
    Part(Part),
}

/// A part of a piece.
#[derive(Debug, Drop)]
struct Part {
    /// The bytes of the piece.
    piece: Arc<Vec<u8>, Global>,
    /// The place of the first byte.
    from: u32,
    /// The number of bytes.
    count: u32,
}

/// Bytes that are handed out in parts, which share their memory. Contracts see them as a list.
#[derive(Debug, Drop)]
pub struct Piece {
    bytes: Arc<Vec<u8>, Global>,
}

impl Model for ByteList {
    ghost use Rattle.std.specs.Prelude.{ℕ, List};
    ghost use Rattle.frame_view.specs.ByteForms.{IsSoundForm, bytes_of_form};

    ghost Value = { List ℕ };

    ghost view = { λ list. bytes_of_form list.form };

    ghost invariant = { λ list. IsSoundForm list.form };
}

impl Model for Piece {
    ghost use Rattle.std.specs.Prelude.{ℕ, List};
    ghost use Rattle.std.specs.Arc.{arc_value};

    ghost Value = { List ℕ };

    ghost view = { λ piece. (arc_value piece.bytes).items };
}

impl Piece {
    /// A piece of these bytes.
    pub fn new(alloc: Global, bytes: Vec<u8>) -> Result<Piece, Memory>
        ensures { IfOk result (λ piece. piece ≡ bytes.items) }
    {
        Ok(Piece {
            bytes: Arc::new(alloc, bytes)?,
        })
    }

    /// The `count` bytes from a place on. They share the piece's memory and take none of their own,
    /// unless they begin with a VLAN tag, which `untag` takes out in place.
    pub fn part(&self, alloc: Global, from: u32, count: u32) -> Result<ByteList, Memory>
        requires { from + count ≤ length self.now }
        ensures { IfOk result (λ part. part ≡ take count (drop from self.now)) }
    {
        let bytes = part_of(self.bytes.as_slice(), from, count);
        if begins_tagged(bytes) {
            return Ok(ByteList::from_vec(bytes.to_vec(alloc)?));
        }
        Ok(ByteList {
            form: ByteForm::Part(Part {
                piece: Arc::try_clone(&self.bytes)?,
                from,
                count,
            }),
        })
    }
}

impl ByteList {
    /// An empty list. It takes no memory.
    pub fn new(alloc: Global) -> ByteList
        ensures { result ≡ [] }
    {
        ByteList::from_vec(Vec::new(alloc))
    }

    /// The bytes of a `Vec`, in their order. It takes no memory.
    pub fn from_vec(bytes: Vec<u8>) -> ByteList
        ensures { result ≡ bytes.items }
    {
        ByteList {
            form: ByteForm::Own(bytes),
        }
    }

    /// The number of bytes.
    pub fn len(&self) -> usize
        ensures value { result ≡ length self.now }
        ensures small { result < 2 ^ 63 }
    {
        match &self.form {
            ByteForm::Own(bytes) => bytes.len(),
            ByteForm::Part(part) => part.count as usize,
        }
    }

    /// Whether the list is empty.
    pub fn is_empty(&self) -> bool
        ensures { IsTrue result ↔ (self.now ≡ []) }
    {
        self.len() == 0
    }

    /// The byte at a place, counted from 0. `None` exactly if the place isn't below the length.
    pub fn get(&self, at: usize) -> Option<&u8>
        ensures { option_copied result ≡ slice_get self.now at }
    {
        self.as_slice().get(at)
    }

    /// All bytes, borrowed, in their order.
    pub fn as_slice(&self) -> &[u8]
        ensures { result.now ≡ self.now }
    {
        match &self.form {
            ByteForm::Own(bytes) => bytes.as_slice(),
            ByteForm::Part(part) => part_of(part.piece.as_slice(), part.from, part.count),
        }
    }

    /// Puts a byte at the end. After `Memory` the list is unchanged.
    pub fn push(&mut self, byte: u8) -> Result<(), Memory>
        ensures ok { OnOk result (self.new ≡ self.old ++ byte ∷ []) }
        ensures err { OnErr result (self.new ≡ self.old) }
    {
        match &mut self.form {
            ByteForm::Own(bytes) => {
                bytes.push(byte)?;
                Ok(())
            }
            ByteForm::Part(part) => {
                let shared = part_of(part.piece.as_slice(), part.from, part.count);
                let mut bytes = shared.to_vec(part.piece.allocator().clone()?)?;
                bytes.push(byte)?;
                self.form = ByteForm::Own(bytes);
                Ok(())
            }
        }
    }

    /// Removes the four bytes of the tag that the bytes begin with, in place.
    pub(crate) fn cut_tag(&mut self)
        requires { IsTrue (is_tagged self.old) }
        ensures { self.new ≡ take 12 self.old ++ drop 16 self.old }
    {
        match &mut self.form {
            ByteForm::Own(bytes) => cut_four_at(bytes, 12),
            ByteForm::Part(_) => unreachable!(),
        }
    }
}

/// The `count` bytes from a place on.
fn part_of(bytes: &[u8], from: u32, count: u32) -> &[u8]
    requires { from + count ≤ length bytes.now }
    ensures { result.now ≡ take count (drop from bytes.now) }
{
    let (_, behind) = bytes.split_at(from as usize);
    let (part, _) = behind.split_at(count as usize);
    part
}

/// Removes the four bytes from a place on, in place.
fn cut_four_at(bytes: &mut Vec<u8>, at: usize)
    requires { at + 4 ≤ length bytes.old.items }
    ensures { bytes.new.items ≡ take at bytes.old.items ++ drop (at + 4) bytes.old.items }
{
    let end = bytes.len() - 4;
    bytes.copy_within(at + 4.., at);
    bytes.truncate(end);
}
