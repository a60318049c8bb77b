//! What is found out about the rings of a group.

use capture_file::CpuEnd;
use frame_view::ItemList;
use ring_sizes::{DropRange, Reached};

/// What was read of a file of a CPU's capture.
#[derive(Clone, Copy, Debug)]
pub struct ReadFile {
    /// The CPU.
    pub cpu: u32,
    /// The number of frames.
    pub frames: u32,
    /// With how many of them a frame arrived.
    pub arrivals: u32,
    /// How the file ended: whole, damaged, or by a read that failed.
    pub end: CpuEnd,
}

/// The files that were read, in the order of their CPUs.
pub type ReadFiles = ItemList<ReadFile>;

/// The smallest rings of members, from member 0 up.
pub type ReachedList = ItemList<Reached>;

/// What members drop, from member 0 up.
pub type DropRanges = ItemList<DropRange>;

/// What is found out about the rings of a group: of blocks, or of slots.
#[derive(Debug, Drop)]
pub struct SizeReport {
    /// The files that were read.
    pub files: ReadFiles,
    /// The smallest ring of each member that is never full, in blocks or slots, at least 1; none
    /// where packets roll over to other members.
    pub members: ReachedList,
    /// The smallest rings of the whole group that are never full.
    pub group: Reached,
    /// The packets that each member drops over the setup's own ring; none where packets roll over.
    pub drops: DropRanges,
    /// The packets that all members together drop over the setup's own rings; none where packets
    /// roll over.
    pub total: Option<DropRange>,
}
