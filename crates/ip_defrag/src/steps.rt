//! The result of pushing a frame.
use frame_view::{Frame, Memory};

/// The result for a frame that was pushed.
#[derive(Debug, Drop)]
pub struct Step {
    /// The frame itself if it doesn't take part in reassembly, or the datagram that it completed.
    pub whole: Option<Frame>,
    /// How many fragments were given up, the frame itself included if it was.
    pub discarded: u32,
}

/// Memory ran out. Nothing has changed, and the frame is handed back.
#[derive(Debug, Drop)]
pub struct NoPush {
    /// The frame that was to be pushed.
    pub frame: Frame,
}

impl From<NoPush> for Memory {
    /// The frame is dropped.
    fn from(_: NoPush) -> Memory {
        Memory
    }
}
