//! What a run logs of a CPU.
use crate::ArrivalList;
use capture_file::CpuEnd;
use frame_view::ItemList;

/// What a run logs of a CPU.
#[derive(Debug, Drop)]
pub struct CpuLog {
    /// The number of frames that were read.
    pub frames: u32,
    /// The number of bytes that the capture gave.
    pub given: u64,
    /// How it ended.
    pub end: CpuEnd,
    /// The arrivals, in order.
    pub arrivals: ArrivalList,
}

/// The logs of the CPUs, from 0 up.
pub type CpuLogList = ItemList<CpuLog>;
