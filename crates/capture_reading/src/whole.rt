//! A capture, read whole.
ghost use Rattle.std.specs.Prelude.{◌≡◌, Some, option_map, IfOk, OnErr};
ghost use Rattle.capture_reading.specs.Wholes.{IsReading, IsStillThere};

use crate::buffer::Buffer;
use crate::partial_capture::PartialCapture;
use capture_file::{CpuEnd, an_empty_capture_has_no_frames, too_many_bytes_are_damage};
use frame_view::{Frames, Memory};
use std::alloc::Global;
use tap_outside::Source;

/// What was read of a capture.
#[derive(Debug, Drop)]
pub struct Reading {
    /// The frames of the bytes that the source gave, in order.
    pub frames: Frames,
    /// The number of these bytes.
    pub given: u64,
    /// How the capture ended: whole, damaged, or by a read that failed.
    pub end: CpuEnd,
}

/// Reads the capture of a CPU to its end, a piece of at most 65,536 bytes at a time: until the
/// source ends or fails, or the bytes show damage, as more than 33,554,432 bytes do. Nothing is
/// read after damage. Without a source, such as when a file can't be opened, nothing is read and
/// the end is a fault. The error is out of memory: then some bytes are lost, but a source that was
/// handed in is still there, and no read of it failed.
pub fn read_capture<S: Source>(
    alloc: Global,
    cpu: u32,
    source: &mut Option<S>,
) -> Result<Reading, Memory>
    ensures read { IfOk result
        (IsReading cpu (option_map S.seen source.old) (option_map S.seen source.new)) }
    ensures kept { OnErr result
        (IsStillThere (option_map S.seen source.old) (option_map S.seen source.new)) }
{
    an_empty_capture_has_no_frames();
    let Some(source) = source else {
        return Ok(Reading {
            frames: Frames::new(alloc),
            given: 0,
            end: CpuEnd::Fault,
        });
    };
    read_source(alloc, cpu, source)
}

/// Reads the capture of a CPU from a source that was handed in.
fn read_source<S: Source>(alloc: Global, cpu: u32, source: &mut S) -> Result<Reading, Memory>
    ensures read { IfOk result
        (IsReading cpu (Some (S.seen source.old)) (Some (S.seen source.new))) }
    ensures kept { OnErr result ((S.seen source.new).faults ≡ (S.seen source.old).faults) }
{
    too_many_bytes_are_damage();
    let mut buffer = Buffer::new(alloc)?;
    let mut partial_capture = PartialCapture::new(alloc, cpu);
    'reading: while partial_capture.ended.is_none() {
        partial_capture.read_piece(source, &mut buffer)?;
    }
    let Some(end) = partial_capture.ended else {
        unreachable!();
    };
    Ok(Reading {
        frames: partial_capture.frames,
        given: partial_capture.given,
        end,
    })
}
