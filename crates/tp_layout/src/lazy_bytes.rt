//! The bytes of a block or of a slot, which cost nothing until they are written.
ghost use Rattle.std.specs.Prelude.{◌≡◌, ◌+◌, ◌<◌, ◌≤◌, ℕ, [], length, replicate, IfOk};
ghost use Rattle.std.specs.Arc.{arc_value};
ghost use Rattle.std.specs.Vec.{vec_capacity};
ghost use Rattle.tp_layout.specs.BlockWrites.{bytes_or_zeros, padded};

use frame_view::Memory;
use std::alloc::Global;
use std::mem;
use std::sync::Arc;

/// How many bytes `grow` makes writable beyond those that are asked for, so that most calls of it
/// find enough.
const AHEAD: usize = 1024;

/// Bytes that are zeros until the first write.
#[derive(Debug, Drop)]
pub struct LazyBytes {
    /// The bytes. Until the first write there are none; `grow` adds them little by little.
    pub written: Vec<u8>,
    /// The same number of zeros, which all blocks or slots of a ring share: they are the bytes
    /// until the first write.
    pub zeros: Arc<Vec<u8>, Global>,
}

/// The zeros of a block or a slot, to be shared.
pub fn zeros(alloc: Global, size: u32) -> Result<Arc<Vec<u8>, Global>, Memory>
    ensures { IfOk result (λ zeros. (arc_value zeros).items ≡ replicate size 0) }
{
    let bytes = vec![in alloc; 0; size as usize]?;
    Ok(Arc::new(alloc, bytes)?)
}

impl LazyBytes {
    /// The same number of bytes as there are zeros, without memory for a write: `begin_in` is given
    /// it.
    pub fn new(alloc: Global, zeros: &Arc<Vec<u8>, Global>) -> Result<LazyBytes, Memory>
        ensures written { IfOk result (λ bytes. bytes.written.items ≡ []) }
        ensures zeros { IfOk result (λ bytes. arc_value bytes.zeros ≡ arc_value zeros.now) }
    {
        Ok(LazyBytes {
            written: Vec::new(alloc),
            zeros: Arc::try_clone(zeros)?,
        })
    }

    /// The same number of bytes as there are zeros, with memory for this size, which costs nothing
    /// more until the first write.
    pub fn with_room(
        alloc: Global,
        zeros: &Arc<Vec<u8>, Global>,
        size: u32,
    ) -> Result<LazyBytes, Memory>
        ensures written { IfOk result (λ bytes. bytes.written.items ≡ []) }
        ensures zeros { IfOk result (λ bytes. arc_value bytes.zeros ≡ arc_value zeros.now) }
        ensures room { IfOk result (λ bytes. size ≤ vec_capacity bytes.written) }
    {
        Ok(LazyBytes {
            written: Vec::with_capacity(alloc, size as usize)?,
            zeros: Arc::try_clone(zeros)?,
        })
    }

    /// The bytes.
    pub fn as_slice(&self) -> &[u8]
        ensures { (size : ℕ) → (arc_value self.now.zeros).items ≡ replicate size 0
            → result.now ≡ bytes_or_zeros size self.now.written.items }
    {
        if self.written.is_empty() {
            return self.zeros.as_slice();
        }
        self.written.as_slice()
    }

    /// The bytes that were written, in their own memory.
    pub(crate) fn into_written(self) -> Vec<u8>
        ensures { result.items ≡ self.written.items }
    {
        self.written
    }

    /// Makes them bytes of this size that can be written, if they were never written and have
    /// memory for it.
    pub fn begin(&mut self, size: u32)
        requires room { self.old.written.items ≡ [] → size ≤ vec_capacity self.old.written }
        ensures written { self.new.written.items ≡ bytes_or_zeros size self.old.written.items }
        ensures zeros { arc_value self.new.zeros ≡ arc_value self.old.zeros }
    {
        zeros_first(&mut self.written, size);
    }

    /// Makes them bytes of this size that can be written. If they were never written they take this
    /// memory, whose content is lost.
    pub fn begin_in(&mut self, room: &mut Vec<u8>, size: u32)
        requires room { size ≤ vec_capacity room.old }
        ensures written { self.new.written.items ≡ bytes_or_zeros size self.old.written.items }
        ensures zeros { arc_value self.new.zeros ≡ arc_value self.old.zeros }
    {
        take_room(&mut self.written, room, size);
    }

    /// Makes the bytes up to this place writable. They are `size` bytes in all: those that are
    /// there, and zeros after them, for which there is memory.
    pub(crate) fn grow(&mut self, end: u32, size: u32)
        requires order { end ≤ size }
        requires fits { length self.old.written.items ≤ size }
        requires room { length self.old.written.items < size
            → size ≤ vec_capacity self.old.written }
        ensures same { padded size self.new.written.items ≡ padded size self.old.written.items }
        ensures enough { end ≤ length self.new.written.items }
        ensures fits { length self.new.written.items ≤ size }
        ensures room { length self.new.written.items < size
            → size ≤ vec_capacity self.new.written }
        ensures zeros { arc_value self.new.zeros ≡ arc_value self.old.zeros }
    {
        let end = end as usize;
        if self.written.len() < end {
            zeros_after(&mut self.written, (end + AHEAD).min(size as usize));
        }
    }
}

/// Adds zeros up to this number of bytes.
fn zeros_after(bytes: &mut Vec<u8>, size: usize)
    requires fits { length bytes.old.items ≤ size }
    requires room { size ≤ vec_capacity bytes.old }
    ensures items { bytes.new.items ≡ padded size bytes.old.items }
    ensures room { vec_capacity bytes.old ≤ vec_capacity bytes.new }
{
    match bytes.resize(size, 0) {
        Ok(()) => {}
        Err(_) => unreachable!(),
    }
}

/// Fills bytes that were never written with zeros.
fn zeros_first(bytes: &mut Vec<u8>, size: u32)
    requires room { bytes.old.items ≡ [] → size ≤ vec_capacity bytes.old }
    ensures { bytes.new.items ≡ bytes_or_zeros size bytes.old.items }
{
    if bytes.is_empty() {
        zeros_after(bytes, size as usize);
    }
}

/// Fills bytes that were never written with zeros, in this memory.
fn take_room(bytes: &mut Vec<u8>, room: &mut Vec<u8>, size: u32)
    requires room { size ≤ vec_capacity room.old }
    ensures { bytes.new.items ≡ bytes_or_zeros size bytes.old.items }
{
    if bytes.is_empty() {
        room.clear();
        mem::swap(bytes, room);
        zeros_first(bytes, size);
    }
}
