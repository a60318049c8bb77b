//! What an arrival is before any member is chosen: its flow hash, its verdict, and the offer that
//! it makes.
ghost use Rattle.std.specs.Prelude.{◌≡◌, ◌≢◌, ◌<◌, ◌≤◌, IfSome, length, option_copied};
ghost use Rattle.fanout_group.specs.Arrivals.{IsArrival};
ghost use Rattle.fanout_group.specs.Judgements.{AgreesAt, IsJudged, JudgeRules, first_entry};
ghost use Rattle.fanout_group.specs.Judgements.{hash_by};
ghost use Rattle.fanout_group.specs.Judgements.{offer_by, verdict_by};
ghost use Rattle.fanout_group.specs.RulesOfJudging.{judge_rules_of};
ghost use Rattle.flow_hash.specs.FlowHash.{flow_input};
ghost use Rattle.flow_hash.specs.Toeplitz.{hash_of};
ghost use Rattle.frame_view.specs.Headers.{packet_type_of, view_of};
ghost use Rattle.ring_model.specs.Offers.{IsSound, offer_of};
ghost use Rattle.ring_model.specs.Sizes.{snap_of};

use crate::{ArrivalLog, TryList};
use bpf_filter::{Program, Seen, verdict_with};
use flow_hash::{Key, flow_hash};
use frame_view::{Frame, link_header, pkttype, view};
use ring_model::{Offer, PACKET_HEADER};
use std::alloc::Global;

/// The rules by which a group judges the arrivals of one CPU.
#[derive(Clone, Copy)]
pub struct ArrivalRules<'a> {
    /// The key of the flow hash; without one every hash is 0.
    pub key: Option<&'a Key>,
    /// The filter; without one every arrival is kept whole.
    pub filter: Option<&'a Program>,
    /// The station's own address, which decides whether a packet is for this host or another one.
    pub own: Option<[u8; 6]>,
    /// The receive queue of the CPU.
    pub queue: u32,
    /// The bytes of a block that are for packets.
    pub room: u32,
}

/// An arrival that was judged.
#[derive(Debug, Drop)]
pub struct Judged {
    /// Its entry in its CPU's log, with no try yet.
    pub entry: ArrivalLog,
    /// What it offers to a member; nothing if its verdict is 0.
    pub offer: Option<Offer>,
}

/// What a group finds of an arrival, before any member is chosen.
#[derive(Clone, Copy)]
pub(crate) struct ArrivalJudgement {
    /// Its flow hash, 0 without a key.
    pub(crate) hash: u32,
    /// How many bytes the filter keeps at most; 0 refuses the arrival.
    pub(crate) verdict: u32,
    /// How many bytes it offers.
    pub(crate) snap: u32,
    /// Its packet type, 0 to 3.
    pub(crate) pkttype: u8,
}

impl ArrivalRules<'_> {
    /// Judges an arrival of the CPU, with its ticket if it drew one: its flow hash, then the
    /// filter's verdict on it, then the offer that it makes. It takes no memory.
    pub fn judge(&self, alloc: Global, arrival: Frame, ticket: Option<u64>) -> Judged
        requires arrival { IsArrival arrival }
        requires room { 82 < self.now.room }
        ensures entry { result.entry ≡ first_entry (judge_rules_of self.now) arrival ticket }
        ensures offer { result.offer ≡ offer_by (judge_rules_of self.now) self.now.room arrival }
        ensures sound { IfSome result.offer (IsSound self.now.room) }
        ensures judged { (group : JudgeRules) → AgreesAt arrival.cpu group (judge_rules_of self.now)
            → IsJudged group self.now.room arrival result.entry result.offer }
    {
        let judgement = self.judgement(&arrival);
        let entry = ArrivalLog {
            index: arrival.index,
            ticket,
            hash: judgement.hash,
            verdict: judgement.verdict,
            tries: TryList::new(alloc),
        };
        let offer = if judgement.verdict == 0 {
            None
        } else {
            Some(self.offer(arrival, judgement))
        };
        Judged { entry, offer }
    }

    /// The flow hash of an arrival, the filter's verdict on it, and how much of it is offered: as
    /// many bytes as the least of its captured length, its verdict, and what a block has room for.
    /// Its caller hands the arrival on whole, and so it isn't inlined there.
    #[inline(never)]
    pub(crate) fn judgement(&self, arrival: &Frame) -> ArrivalJudgement
        requires arrival { IsArrival arrival.now }
        requires room { 82 < self.now.room }
        ensures hash { result.hash ≡ hash_by (option_copied self.now.key) arrival.now }
        ensures verdict { result.verdict ≡ verdict_by (judge_rules_of self.now) arrival.now }
        ensures snap { result.snap
            ≡ snap_of self.now.room (length arrival.now.bytes) result.verdict }
        ensures pkttype { result.pkttype ≡ packet_type_of arrival.now.bytes self.now.own }
    {
        let pkttype = pkttype(arrival.bytes.as_slice(), self.own);
        let hash = self.hash(arrival);
        let verdict = self.verdict(arrival, pkttype, hash);
        let captured = arrival.bytes.len();
        let most = (self.room - PACKET_HEADER) as usize;
        ArrivalJudgement {
            hash,
            verdict,
            snap: captured.min(verdict as usize).min(most) as u32,
            pkttype,
        }
    }

    /// What an arrival that the filter passes offers to a member.
    pub(crate) fn offer(&self, arrival: Frame, judgement: ArrivalJudgement) -> Offer
        requires arrival { IsArrival arrival }
        requires room { 82 < self.now.room }
        requires passes { judgement.verdict ≢ 0 }
        requires snap { judgement.snap
            ≡ snap_of self.now.room (length arrival.bytes) judgement.verdict }
        requires pkttype { judgement.pkttype ≡ packet_type_of arrival.bytes self.now.own }
        ensures offer { result
            ≡ offer_of self.now.room self.now.own judgement.hash judgement.verdict arrival }
        ensures sound { IsSound self.now.room result }
    {
        Offer {
            frame: arrival,
            snap: judgement.snap,
            hash: judgement.hash,
            pkttype: judgement.pkttype,
        }
    }

    /// The flow hash of an arrival, 0 without a key.
    #[inline(always)]
    fn hash(&self, arrival: &Frame) -> u32
        ensures { result ≡ hash_by (option_copied self.now.key) arrival.now }
    {
        match self.key {
            Some(key) => hash_under(key, arrival.bytes.as_slice()),
            None => 0,
        }
    }

    /// How many bytes of an arrival the filter keeps.
    #[inline(always)]
    fn verdict(&self, arrival: &Frame, pkttype: u8, hash: u32) -> u32
        requires no_runt { 14 ≤ length arrival.now.bytes }
        requires pkttype { pkttype ≡ packet_type_of arrival.now.bytes self.now.own }
        requires hash { hash ≡ hash_by (option_copied self.now.key) arrival.now }
        ensures { result ≡ verdict_by (judge_rules_of self.now) arrival.now }
    {
        let bytes = arrival.bytes.as_slice();
        let seen = Seen {
            bytes,
            wire: arrival.wire,
            protocol: link_header(bytes).protocol,
            pkttype,
            queue: self.queue,
            rxhash: hash,
            cpu: arrival.cpu,
        };
        verdict_with(self.filter, &seen)
    }
}

/// The flow hash of a frame. Kept out of the callers, most of which have no key.
#[inline(never)]
fn hash_under(key: &Key, bytes: &[u8]) -> u32
    ensures { result ≡ hash_of key.now (flow_input (view_of bytes.now)) }
{
    flow_hash(key, &view(bytes))
}
