//! The receive path of a CPU: from the frames of its capture to arrivals, and from the tries of an
//! arrival to its log.
ghost use Rattle.std.specs.Prelude.{◌≡◌, ◌+◌, ◌<◌, ◌≤◌, ◌↔◌, ℕ, List, [], ◌∷◌, ◌++◌, None};
ghost use Rattle.std.specs.Prelude.{length, All, IfOk, IfSome, IsTrue, OnErr, OnOk};
ghost use Rattle.capture_file.specs.Laws.{IsCaptured};
ghost use Rattle.fanout_group.specs.Arrivals.{HasPlaceOf, IsArrival, IsUntagged, arrival_at};
ghost use Rattle.fanout_group.specs.Arrivals.{held_after, held_behind, no_runt, whole_at};
ghost use Rattle.fanout_group.specs.Deliveries.{HasDrawn, IsGivenUp, Received};
ghost use Rattle.fanout_group.specs.Deliveries.{TakesAllOf};
ghost use Rattle.fanout_group.specs.Desks.{TakesTheSame};
ghost use Rattle.fanout_group.specs.Judgements.{AgreesAt, JudgeRules, rules_by};
ghost use Rattle.fanout_group.specs.RulesOfJudging.{judge_rules_of};
ghost use Rattle.fanout_group.specs.Paths.{IsPath, IsPathBehind, IsPathTo, first_path};
ghost use Rattle.fanout_group.specs.Plans.{has_defrag, rolls_over};
ghost use Rattle.fanout_group.specs.Routes.{IsBegun, IsRoute, present_after};
ghost use Rattle.fanout_group.specs.Rules.{HasTicket, Rules};
ghost use Rattle.fanout_group.specs.declared.logs.Try.{Try};
ghost use Rattle.frame_view.specs.Vlan.{untagged};
ghost use Rattle.frame_view.specs.declared.frames.Frame.{Frame};
ghost use Rattle.ip_defrag.specs.Fold.{pass};

use crate::delivery::{deliver_from, home};
use crate::{ArrivalList, ArrivalLog, ArrivalRules, Group, Mode, Plan, TryList};
use frame_view::{Frame, LINK_HEADER, Memory, untag};
use ip_defrag::Defrag;
use ring_model::Offer;
use std::alloc::Global;
use std::marker::Model;

/// The receive path of a CPU. Contracts see the fragments that it holds, the present member and the
/// log so far.
#[derive(Drop)]
pub struct ReceivePath {
    /// The shape of the group.
    plan: Plan,
    /// The fragments that are held, if the group reassembles them.
    reassembly: Option<Defrag>,
    /// The member that an arrival is for in mode `Rollover`.
    present: u32,
    /// The arrivals so far.
    log: Vec<ArrivalLog>,
}

impl Model for ReceivePath {
    ghost use Rattle.fanout_group.specs.Paths.{Path};

    ghost Value = { Path };

    ghost use Rattle.fanout_group.specs.PathsInside.{path_value, IsInGroup};

    ghost view = { path_value };

    ghost invariant = { IsInGroup };
}

impl ReceivePath {
    /// The path before the first frame. It takes no memory.
    pub fn new(alloc: Global, plan: Plan) -> ReceivePath
        ensures path { result ≡ first_path plan }
        ensures lawful { (rules : Rules) → IsPath rules [] result }
    {
        let reassembly = if plan.has_defrag() {
            Some(Defrag::new(alloc))
        } else {
            None
        };
        ReceivePath {
            plan,
            reassembly,
            present: 0,
            log: Vec::new(alloc),
        }
    }

    /// Takes a frame of the CPU's capture, and returns what arrives with it: the frame itself,
    /// untagged, or with the flag of defragmentation the datagram that it completed; nothing if
    /// that has fewer than 14 bytes, or if the frame is held or given up. After `Memory` the path
    /// is unchanged, and the frame is dropped.
    pub fn arrive(&mut self, frame: Frame) -> Result<Option<Frame>, Memory>
        requires bare { frame.tag ≡ None }
        requires captured { IsCaptured frame }
        ensures arrival { IfOk result (λ arrival.
            arrival ≡ arrival_at (has_defrag self.old.shape.flags) self.old.held frame) }
        ensures held { OnOk result (self.new ≡ record self.old {
          held = held_behind (has_defrag self.old.shape.flags) self.old.held frame;
        }) }
        ensures sound { IfOk result (λ arrival. IfSome arrival IsArrival) }
        ensures place { IfOk result (λ arrival. IfSome arrival (HasPlaceOf frame)) }
        ensures err { OnErr result (self.new ≡ self.old) }
        ensures lawful { IfOk result (λ arrival. (rules : Rules) (frames : List Frame)
            → IsPath rules frames self.old
            → IsPathBehind rules (frames ++ frame ∷ []) arrival self.new) }
    {
        let mut frame = frame;
        let has_header = untag_arrival(&mut frame);
        match &mut self.reassembly {
            None if has_header => Ok(Some(frame)),
            None => Ok(None),
            Some(reassembly) => push(reassembly, frame),
        }
    }

    /// Receives an arrival of the CPU: it draws its ticket if the mode has tickets, is judged, its
    /// offer is delivered, and it is logged with the tries that were made. If its verdict is 0 no
    /// member is tried.
    ///
    /// Memory for the entry is reserved before the delivery, so that no packet is kept without
    /// being logged. After `Memory` the path is unchanged and no member has the packet; a ticket
    /// that was drawn stays drawn.
    pub fn receive<G: Group>(
        &mut self,
        alloc: Global,
        rules: &ArrivalRules,
        group: &mut G,
        arrival: Frame,
    ) -> Result<(), Memory>
        requires arrival { IsArrival arrival }
        requires block { 82 < rules.now.room }
        requires may_draw { G.may_draw group.old }
        requires room { G.room group.old 9 }
        requires takes { TakesAllOf (G.takes group.old) self.old.shape.members rules.now.room
            arrival.cpu }
        ensures received { OnOk result (Received G.made G.drew rules.now arrival
            self.old self.new group.old group.new) }
        ensures lawful { OnOk result ((judge : JudgeRules) (frames : List Frame)
            → AgreesAt arrival.cpu judge (judge_rules_of rules.now)
            → IsPathTo (rules_by self.old.shape judge) frames arrival self.old
            → IsPath (rules_by self.old.shape judge) frames self.new) }
        ensures room { OnOk result ((n : ℕ) → G.room group.old (n + 9) → G.room group.new n) }
        ensures err { OnErr result (self.new ≡ self.old) }
        ensures given_up { OnErr result (IsGivenUp G.made G.drew rules.now arrival self.old
            group.old group.new) }
        ensures same { TakesTheSame (G.takes group.old) (G.takes group.new) }
    {
        let ticket = draw(self.plan.mode(), group);
        let judgement = rules.judgement(&arrival);
        let index = arrival.index;
        self.log.reserve(1)?;
        let tries = if judgement.verdict == 0 {
            TryList::new(alloc)
        } else {
            let (queue, cpu, hash) = (rules.queue, arrival.cpu, judgement.hash);
            let home = home(&self.plan, self.present, queue, cpu, hash, ticket);
            let offer = rules.offer(arrival, judgement);
            offer_to(alloc, &self.plan, group, &mut self.present, home, offer)?
        };
        self.log.push_reserved(ArrivalLog {
            index,
            ticket,
            hash: judgement.hash,
            verdict: judgement.verdict,
            tries,
        });
        Ok(())
    }

    /// The log.
    pub fn into_log(self) -> ArrivalList
        ensures { result ≡ self.log }
    {
        ArrivalList::from_vec(self.log)
    }
}

/// Draws the ticket of an arrival, which has one only in mode `Lb`.
fn draw<G: Group>(mode: Mode, group: &mut G) -> Option<u64>
    requires may_draw { G.may_draw group.old }
    ensures ticket { HasTicket mode result }
    ensures drawn { HasDrawn G.drew result group.old group.new }
    ensures room { (n : ℕ) → G.room group.old n → G.room group.new n }
    ensures same { TakesTheSame (G.takes group.old) (G.takes group.new) }
{
    match mode {
        Mode::Lb => Some(group.ticket()),
        _ => None,
    }
}

/// Announces an offer and delivers it from its home on; returns its tries. Without rollover that is
/// one try, at home.
fn offer_to<G: Group>(
    alloc: Global,
    plan: &Plan,
    group: &mut G,
    present: &mut u32,
    home: u32,
    offer: Offer,
) -> Result<TryList, Memory>
    requires present { present.old < plan.now.members }
    requires home { home < plan.now.members }
    requires room { G.room group.old 9 }
    requires takes { (member : ℕ) → member < plan.now.members → G.takes group.old member offer }
    ensures route { IfOk result (λ tries. IsRoute (rolls_over plan.now) plan.now.members home
        tries) }
    ensures made { IfOk result (λ tries. G.made offer tries group.old group.new) }
    ensures begun { OnErr result ((tries : List Try)
        × IsBegun (rolls_over plan.now) plan.now.members home tries
        × G.made offer tries group.old group.new) }
    ensures present { IfOk result (λ tries. present.new
        ≡ present_after plan.now.mode present.old tries) }
    ensures stays { OnErr result (present.new ≡ present.old) }
    ensures member { present.new < plan.now.members }
    ensures room { OnOk result ((n : ℕ) → G.room group.old (n + 9) → G.room group.new n) }
    ensures same { TakesTheSame (G.takes group.old) (G.takes group.new) }
{
    group.announce(&offer);
    if plan.rolls_over() {
        let tries = deliver_from(alloc, plan, group, present, home, offer)?;
        return Ok(tries);
    }
    TryList::of_put(alloc, group, home, offer)
}

/// Takes the tag out of a frame, and returns whether it then has a link header. Its caller hands
/// the frame on whole, and so it isn't inlined there.
#[inline(never)]
fn untag_arrival(frame: &mut Frame) -> bool
    requires bare { frame.old.tag ≡ None }
    requires whole { length frame.old.bytes ≤ frame.old.wire }
    ensures untagged { frame.new ≡ untagged frame.old }
    ensures header { IsTrue result ↔ (14 ≤ length frame.new.bytes) }
{
    untag(frame);
    frame.bytes.len() >= LINK_HEADER
}

/// Passes an untagged frame through reassembly, and returns what arrives with it.
#[inline(never)]
fn push(reassembly: &mut Defrag, frame: Frame) -> Result<Option<Frame>, Memory>
    requires untagged { IsUntagged frame }
    requires all_untagged { All IsUntagged reassembly.old }
    ensures arrival { IfOk result (λ arrival.
        arrival ≡ no_runt (pass reassembly.old frame).whole) }
    ensures held { OnOk result (reassembly.new ≡ (pass reassembly.old frame).held) }
    ensures sound { IfOk result (λ arrival. IfSome arrival IsArrival) }
    ensures place { IfOk result (λ arrival. IfSome arrival (HasPlaceOf frame)) }
    ensures all_untagged { All IsUntagged reassembly.new }
    ensures err { OnErr result (reassembly.new ≡ reassembly.old) }
{
    match reassembly.push(frame) {
        Ok(step) => Ok(without_runt(step.whole)),
        Err(_) => Err(Memory),
    }
}

/// Only frames that have a link header; others are dropped here.
fn without_runt(frame: Option<Frame>) -> Option<Frame>
    ensures { result ≡ no_runt frame }
{
    match frame {
        Some(frame) if frame.bytes.len() >= LINK_HEADER => Some(frame),
        _ => None,
    }
}
