//! The log of a CPU: each arrival with its ticket, hash and verdict, and its tries.
use crate::TryList;
use frame_view::ItemList;

/// The result of a try.
#[derive(Clone, Copy, Debug, Default, PartialEq, Eq)]
pub enum Fate {
    /// The member kept the packet.
    #[default]
    Kept,
    /// The member had no room and was left as it was.
    Refused,
    /// The member had no room, and the packet is lost.
    Dropped,
}

/// One try to give an arrival to a member. Its default fills a place of a list that holds no try.
#[derive(Clone, Copy, Debug, Default, PartialEq, Eq)]
pub struct Try {
    /// The member, from 0.
    pub member: u32,
    /// Its result.
    pub fate: Fate,
}

/// One arrival of a CPU.
#[derive(Debug, Drop)]
pub struct ArrivalLog {
    /// The index of its frame in the capture, from 0.
    pub index: u32,
    /// Its flow hash, 0 without a key.
    pub hash: u32,
    /// How many bytes the filter keeps at most; 0 refuses the arrival.
    pub verdict: u32,
    /// Its number among all arrivals of the group, from 0; it has one exactly in mode `Lb`.
    pub ticket: Option<u64>,
    /// The tries that were made with it, none if the verdict is 0.
    pub tries: TryList,
}

/// The arrivals of a CPU, in order.
pub type ArrivalList = ItemList<ArrivalLog>;
