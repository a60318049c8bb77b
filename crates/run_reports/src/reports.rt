//! What a run reports.
use fanout_group::CpuLogList;
use frame_view::{ItemList, Packets};
use reader_walk::Dump;
use ring_model::Notes;
use ring_words::Pending;
use tp_layout::Block;

/// What a run reports of its CPUs and its members.
#[derive(Debug, Drop)]
pub struct RunReport {
    /// The CPUs, from 0 up.
    pub cpus: CpuLogList,
    /// The members, from 0 up.
    pub members: MemberList,
}

/// What a run reports of a member.
#[derive(Debug, Drop)]
pub struct MemberReport {
    /// The notes of its ring.
    pub notes: Notes,
    /// The packets that its reader took out of retired blocks.
    pub walked: Packets,
    /// The retired blocks as bytes, if they were asked for.
    pub dump: Dump,
    /// The number of blocks that its reader walked.
    pub blocks: u64,
    /// What its ring held when it was finished, if feeders and readers had threads of their own;
    /// `None` if everything ran on one thread.
    pub ring: Option<Pending<Block>>,
}

/// The members, from 0 up.
pub type MemberList = ItemList<MemberReport>;

/// What the members of a run sent of the packets that their readers took out.
#[derive(Debug, Drop)]
pub struct Forwards {
    /// What each member sent, from member 0 up.
    pub sent: ItemList<Packets>,
    /// How many packets each member skipped because they are too long for a slot of its transmit
    /// ring.
    pub skipped: ItemList<u64>,
}

/// What a run returns.
#[derive(Drop)]
pub struct Ran<S: Drop> {
    /// What it reports.
    pub report: RunReport,
    /// The source of each CPU, from 0 up, less the bytes that it gave; nothing if none was handed
    /// in.
    pub sources: Vec<Option<S>>,
}
