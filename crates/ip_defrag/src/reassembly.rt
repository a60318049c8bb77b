//! A whole list of frames, passed through reassembly.
ghost use Rattle.std.specs.Prelude.{◌≡◌, [], IfOk};
ghost use Rattle.ip_defrag.specs.Fold.{passed};

use crate::Defrag;
use frame_view::{Frames, Memory};
use std::alloc::Global;
use std::collections::VecDeque;

/// Passes frames through reassembly, in their order, and returns what comes out: each frame that
/// doesn't take part, and each datagram in the place of its last missing fragment. What is pending
/// at the end is dropped.
pub fn reassemble(alloc: Global, frames: Frames) -> Result<Frames, Memory>
    ensures { IfOk result (λ out. out ≡ passed [] frames) }
{
    let mut defrag = Defrag::new(alloc);
    let mut out = Frames::new(alloc);
    let mut waiting = VecDeque::from_vec(frames.into_vec());
    while let Some(frame) = waiting.pop_front() {
        if let Some(whole) = defrag.push(frame)?.whole {
            out.push(whole)?;
        }
    }
    Ok(out)
}
