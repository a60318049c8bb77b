//! The frames of a CPU, of which times and marks are kept.
ghost use Rattle.std.specs.Prelude.{◌≡◌, ◌≤◌, OnOk, All};
ghost use Rattle.fanout_group.specs.Judgements.{AgreesAt, JudgeRules, rules_by};
ghost use Rattle.fanout_group.specs.RulesOfJudging.{judge_rules_of};
ghost use Rattle.deal_rules.specs.Times.{time_of};
ghost use Rattle.frame_deals.specs.Dealings.{IsReadable, IsRising, IsRoom, after_frame};
ghost use Rattle.frame_deals.specs.Dealings.{after_frames, count_of, first_dealing};

use crate::marks::mark;
use crate::{MarkQueue, MarkedFrame};
use deal_rules::Mark;
use fanout_group::{ArrivalRules, Plan, ReceivePath};
use frame_view::{Frame, Frames, Memory};
use std::alloc::Global;
use std::marker::Model;

/// The nanoseconds of a second.
const SECOND: u64 = 1_000_000_000;

/// A CPU whose files are read one after another: of each frame its time and its mark are kept, and
/// nothing else but the fragments that reassembly holds. Contracts see that, its number, the shape
/// of its group, and how many frames and arrivals it had.
#[derive(Drop)]
pub struct CpuDeal {
    /// Its number, from 0.
    number: u32,
    /// The shape of the group.
    plan: Plan,
    /// From frames to arrivals. Nothing is logged there.
    path: ReceivePath,
    /// The number of frames so far.
    frames: u32,
    /// The number of arrivals so far.
    arrivals: u32,
    /// The greatest time so far.
    latest: u64,
    /// Times and marks of the frames so far.
    marks: MarkQueue,
}

impl Model for CpuDeal {
    ghost use Rattle.std.specs.Prelude.{◌≡◌, ◌≤◌};
    ghost use Rattle.frame_deals.specs.Dealings.{Dealing, RisesTo};

    ghost Value = { Dealing };

    ghost view = { λ deal. record {
      cpu = deal.number;
      shape = deal.plan;
      frames = deal.frames;
      arrivals = deal.arrivals;
      held = deal.path.held;
      latest = deal.latest;
      marks = deal.marks;
    } };

    ghost invariant = { λ deal. (deal.path.shape ≡ deal.plan) × (deal.arrivals ≤ deal.frames)
        × RisesTo deal.latest deal.marks };
}

impl CpuDeal {
    /// A CPU of which nothing was read. It takes no memory.
    pub fn new(alloc: Global, number: u32, plan: Plan) -> CpuDeal
        ensures { result ≡ first_dealing number plan }
    {
        CpuDeal {
            number,
            plan,
            path: ReceivePath::new(alloc, plan),
            frames: 0,
            arrivals: 0,
            latest: 0,
            marks: MarkQueue::new(alloc),
        }
    }

    /// Its number, from 0.
    pub fn number(&self) -> u32
        ensures { result ≡ self.now.cpu }
    {
        self.number
    }

    /// The number of frames so far.
    pub fn frames(&self) -> u32
        ensures { result ≡ self.now.frames }
    {
        self.frames
    }

    /// The number of arrivals so far.
    pub fn arrivals(&self) -> u32
        ensures { result ≡ self.now.arrivals }
    {
        self.arrivals
    }

    /// Times and marks of all frames, in order.
    pub(crate) fn into_marks(self) -> MarkQueue
        ensures same { result ≡ self.marks }
        ensures rises { IsRising result }
    {
        self.marks
    }

    /// Takes the next frame: what arrives with it is judged, and its time and its mark are kept.
    /// The only error is that an allocation fails, or that there are 4,294,967,295 frames already.
    pub(crate) fn take(
        &mut self,
        alloc: Global,
        rules: &ArrivalRules,
        frame: Frame,
    ) -> Result<(), Memory>
        requires frame { IsReadable self.old.cpu frame }
        requires room { IsRoom rules.now.room }
        ensures cpu { OnOk result (self.new.cpu ≡ self.old.cpu) }
        ensures shape { OnOk result (self.new.shape ≡ self.old.shape) }
        ensures arrivals { OnOk result (self.old.arrivals ≤ self.new.arrivals) }
        ensures taken { OnOk result ((judge : JudgeRules)
            → AgreesAt self.old.cpu judge (judge_rules_of rules.now)
            → self.new
            ≡ after_frame (rules_by self.old.shape judge) rules.now.room frame self.old) }
    {
        if self.frames == u32::MAX {
            return Err(Memory);
        }
        let time = self.latest.max(time_of(&frame));
        let mut frame = frame;
        frame.index = self.frames;
        let arrival = self.path.arrive(frame)?;
        let mark = mark(alloc, &self.plan, rules, self.number, arrival);
        self.marks.push(alloc, MarkedFrame { time, mark })?;
        self.arrivals += arrived(mark);
        self.frames += 1;
        self.latest = time;
        Ok(())
    }

    /// Takes the next frames, in order.
    pub(crate) fn take_all(
        &mut self,
        alloc: Global,
        rules: &ArrivalRules,
        frames: Frames,
    ) -> Result<(), Memory>
        requires frames { All (IsReadable self.old.cpu) frames }
        requires room { IsRoom rules.now.room }
        ensures cpu { OnOk result (self.new.cpu ≡ self.old.cpu) }
        ensures shape { OnOk result (self.new.shape ≡ self.old.shape) }
        ensures arrivals { OnOk result (self.old.arrivals ≤ self.new.arrivals) }
        ensures taken { OnOk result ((judge : JudgeRules)
            → AgreesAt self.old.cpu judge (judge_rules_of rules.now)
            → self.new
            ≡ after_frames (rules_by self.old.shape judge) rules.now.room frames self.old) }
    {
        for frame in frames.into_vec() {
            self.take(alloc, rules, frame)?;
        }
        Ok(())
    }
}

/// The time of a frame in nanoseconds.
fn time_of(frame: &Frame) -> u64
    ensures { result ≡ time_of frame.now }
{
    let seconds = u64::from(frame.sec);
    let rest = u64::from(frame.nsec);
    seconds * SECOND + rest
}

/// The number of arrivals with a mark: one, unless nothing arrived.
fn arrived(mark: Mark) -> u32
    ensures { result ≡ count_of mark }
{
    match mark {
        Mark::Nothing => 0,
        Mark::Refused | Mark::Given { .. } => 1,
    }
}
