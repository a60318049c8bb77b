//! How the reading of a capture ended.
use crate::CaptureError;

/// How the frames of a CPU ended.
#[derive(Clone, Copy, Debug, PartialEq, Eq)]
pub enum CpuEnd {
    /// The capture was read to its end, and is whole.
    Whole,
    /// The capture couldn't be fetched, or reading it failed.
    Fault,
    /// What was read is damaged, or cut.
    Damaged(CaptureError),
}
