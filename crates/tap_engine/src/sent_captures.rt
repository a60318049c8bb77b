//! A capture that is sent through a transmit ring.
ghost use Rattle.std.specs.Prelude.{◌≡◌, ◌≤◌, None, length, All, IfOk, IsTrue, OnErr};
ghost use Rattle.setup_text.specs.Sound.{IsSetup};
ghost use Rattle.tap_outside.specs.Seen.{NoReadFailed, OnlyReads};
ghost use Rattle.tp_layout.specs.Requests.{transmit_fault};
ghost use Rattle.tap_running.specs.Counts.{IsCounted};
ghost use Rattle.tap_running.specs.Captures.{fault_at};
ghost use Rattle.tap_engine.specs.Names.{first_file};
ghost use Rattle.tap_engine.specs.Sendings.{IsFirst, IsSending};

use crate::sources::{close_capture, fetch_capture};
use capture_file::{CpuEnd, an_empty_capture_has_no_frames, frames_are_captured, frames_are_few};
use capture_reading::{Reading, read_capture};
use frame_view::{Frames, Memory};
use setup_text::Setup;
use std::alloc::Global;
use tap_outside::Store;
use tx_ring::{Transmitted, transmit_frames};

/// The result of a capture that was sent.
#[derive(Drop)]
pub(crate) struct Sending {
    /// The number of the frames of the capture.
    pub frames: usize,
    /// How the capture ended.
    pub end: CpuEnd,
    /// The result of its frames.
    pub sent: Transmitted,
}

/// Reads the capture of CPU 0 to its end and sends its frames through a transmit ring.
pub(crate) fn send_capture<S: Store>(
    alloc: Global,
    setup: &Setup,
    store: &mut S,
) -> Result<Sending, Memory>
    requires setup { IsSetup setup.now }
    requires ring { transmit_fault setup.now.request ≡ None }
    requires meant { IsTrue ((S.seen store.old).to_read (first_file setup.now.cpus)) }
    ensures sent { IfOk result (IsSending (S.seen store.old) (S.seen store.new) setup.now) }
    ensures faults { IfOk result (λ sending. IsCounted (S.seen store.old) (S.seen store.new)
        (fault_at sending.end)) }
    ensures short { IfOk result (λ sending.
        All (λ packet. length packet.bytes ≤ 4294967291) sending.sent.packets) }
    ensures store { OnlyReads (S.seen store.old) (S.seen store.new) }
{
    frames_are_captured();
    frames_are_few();
    let Reading {
        frames,
        end,
        given: _,
    } = read_first(alloc, setup, store)?;
    let sent = transmit_frames(alloc, setup.shape, setup.skip_bad, &frames)?;
    Ok(Sending {
        frames: frames.len(),
        end,
        sent,
    })
}

/// Reads the capture of CPU 0 to its end. One that can't be fetched gives nothing and ends with a
/// fault. If memory runs out no read failed.
fn read_first<S: Store>(alloc: Global, setup: &Setup, store: &mut S) -> Result<Reading, Memory>
    requires setup { IsSetup setup.now }
    requires meant { IsTrue ((S.seen store.old).to_read (first_file setup.now.cpus)) }
    ensures read { IfOk result (IsFirst (S.seen store.old) (S.seen store.new) setup.now) }
    ensures faults { IfOk result (λ reading. IsCounted (S.seen store.old) (S.seen store.new)
        (fault_at reading.end)) }
    ensures store { OnlyReads (S.seen store.old) (S.seen store.new) }
    ensures kept { OnErr result (NoReadFailed (S.seen store.old) (S.seen store.new)) }
{
    an_empty_capture_has_no_frames();
    let mut source = fetch_capture(store, &setup.cpus.as_slice()[0])?;
    // `read_capture` ends in the same way, but its contract allows it to run out of memory there.
    if source.is_none() {
        return Ok(Reading {
            frames: Frames::new(alloc),
            given: 0,
            end: CpuEnd::Fault,
        });
    }
    let reading = read_capture(alloc, 0, &mut source);
    close_capture(store, source);
    reading
}
