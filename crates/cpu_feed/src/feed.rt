//! A CPU of a replay: its source, which is read a piece at a time, the frames of the last piece
//! that still wait, and its receive path.
//!
//! A piece is read only if no frame waits, so that memory for input doesn't grow with the capture.
//! A frame that is fed moves out of the queue into the receive path. The source has ended once a
//! read gave no byte or failed, or the bytes showed damage; the frames before that are still fed.
ghost use Rattle.std.specs.Prelude.{◌≡◌, ◌≢◌, ◌+◌, ◌<◌, ◌≤◌, ℕ, List, None, Some, false, true, []};
ghost use Rattle.std.specs.Prelude.{length, option_map, IfOk, IsSome, OnErr, OnOk};
ghost use Rattle.capture_file.specs.declared.cpu_end.CpuEnd.TheVariants.{Fault};
ghost use Rattle.cpu_feed.specs.CpuFeeds.{Closes, FailsFed, HasNotFailed, HasRead, IsAllOfCpu};
ghost use Rattle.cpu_feed.specs.CpuFeeds.{IsReady, Pops, ReadsWhereNoneWaits, frames_in, unread};
ghost use Rattle.cpu_feed.specs.Feeds.{Feeds, GivesUp};
ghost use Rattle.cpu_feed.specs.Lawful.{IsLawful};
ghost use Rattle.fanout_group.specs.Deliveries.{TakesAllOf};
ghost use Rattle.fanout_group.specs.Desks.{TakesTheSame};
ghost use Rattle.fanout_group.specs.Judgements.{AgreesAt, JudgeRules, rules_by};
ghost use Rattle.fanout_group.specs.RulesOfJudging.{judge_rules_of};
ghost use Rattle.fanout_group.specs.Paths.{IsPath, first_path};
ghost use Rattle.fanout_group.specs.Rules.{Rules};
ghost use Rattle.frame_view.specs.declared.frames.Frame.{Frame};

use capture_file::{
    CpuEnd, Decoder, an_empty_capture_has_no_frames, damage_is_the_end, frames_are_captured,
    frames_are_few, frames_are_numbered, too_many_bytes_are_damage,
};
use capture_reading::{Buffer, decode, end_at, ended_by};
use fanout_group::{ArrivalRules, CpuLog, Group, Plan, ReceivePath};
use frame_view::{Frame, Frames, Memory};
use history::History;
use std::alloc::Global;
use std::collections::VecDeque;
use std::marker::Model;
use std::mem;
use std::snapshot::Snapshot;
use tap_outside::Source;

/// A CPU. Contracts see its number, its source as it was handed in, the bytes that it gave, how it
/// ended, how many frames were fed, and the receive path.
#[derive(Drop)]
pub struct CpuFeed<S: Source> {
    /// Its number, from 0.
    number: u32,
    /// Its source, if one was handed in.
    source: Option<S>,
    /// Decodes what the source gives.
    decoder: Decoder,
    /// The number of bytes that the source gave.
    given: u64,
    /// How the source ended, once it did.
    ended: Option<CpuEnd>,
    /// The frames that were decoded and not fed yet, all of one piece.
    waiting: VecDeque<Frame>,
    /// The number of frames that were fed.
    fed: u32,
    /// From frames to arrivals.
    path: ReceivePath,
    /// Whether a piece was lost because it couldn't be allocated: no more is read then.
    stuck: bool,
    /// The source as it was handed in. It takes no memory: only contracts read it.
    first: Snapshot<Option<S>>,
    /// The bytes that the source gave. They take no memory: only contracts read them.
    trace: History<u8>,
}

impl<S: Source> Model for CpuFeed<S> {
    ghost use Rattle.std.specs.Prelude.{option_map};
    ghost use Rattle.cpu_feed.specs.CpuFeeds.{Feeding, IsKnown};

    ghost Value = { Feeding };

    ghost view = { λ cpu. record {
      number = cpu.number;
      first = option_map S.seen cpu.first.value;
      bytes = cpu.trace.items;
      ended = cpu.ended;
      fed = cpu.fed;
      path = cpu.path;
    } };

    ghost invariant = { λ cpu. IsKnown cpu.stuck cpu.number
        (option_map S.seen cpu.first.value)
        (option_map S.seen cpu.source)
        cpu.trace.items cpu.ended cpu.fed cpu.given cpu.decoder cpu.waiting.items };
}

impl<S: Source> CpuFeed<S> {
    /// A CPU of which nothing was read.
    pub fn new(alloc: Global, number: u32, source: Option<S>, plan: Plan) -> CpuFeed<S>
        ensures first { result ≡ record {
          number = number;
          first = option_map S.seen source;
          bytes = [];
          ended = None;
          fed = 0;
          path = first_path plan;
        } }
        ensures lawful { (rules : Rules) → IsPath rules [] result.path }
    {
        an_empty_capture_has_no_frames();
        let first = Snapshot::of(&source);
        CpuFeed {
            number,
            source,
            decoder: Decoder::new(alloc, number),
            given: 0,
            ended: None,
            waiting: VecDeque::new(alloc),
            fed: 0,
            path: ReceivePath::new(alloc, plan),
            stuck: false,
            first,
            trace: History::new(),
        }
    }

    /// Its number, from 0.
    pub fn number(&self) -> u32
        ensures { result ≡ self.now.number }
    {
        self.number
    }

    /// Whether more has to be read before a frame can be fed.
    fn is_dry(&self) -> Result<bool, Memory>
        ensures dry { IfOk result (λ dry. dry ≡ true
            → (self.now.ended ≡ None) × (length (frames_in self.now) ≤ self.now.fed)) }
        ensures ready { IfOk result (λ dry. dry ≡ false → IsReady self.now) }
        ensures err { OnErr result (self.now.ended ≡ None) }
    {
        if self.stuck {
            return Err(Memory);
        }
        Ok(self.waiting.is_empty() && self.ended.is_none())
    }

    /// Reads the next piece of the source and decodes it. Without a source the CPU ends with a
    /// fault.
    fn read_piece(&mut self, alloc: Global, buffer: &mut Buffer) -> Result<(), Memory>
        requires unended { self.old.ended ≡ None }
        requires none { length (frames_in self.old) ≤ self.old.fed }
        ensures read { OnOk result (HasRead self.old self.new) }
        ensures less { OnOk result (unread self.new < unread self.old) }
        ensures failed { OnOk result (FailsFed self.new) }
        ensures err { OnErr result (self.new.ended ≡ None) }
    {
        damage_is_the_end();
        too_many_bytes_are_damage();
        if self.stuck {
            return Err(Memory);
        }
        let Some(source) = &mut self.source else {
            self.ended = Some(CpuEnd::Fault);
            return Ok(());
        };
        let Ok(()) = buffer.read(source) else {
            self.ended = Some(CpuEnd::Fault);
            return Ok(());
        };
        let piece = buffer.piece();
        if piece.is_empty() {
            self.ended = Some(end_at(&self.decoder));
            return Ok(());
        }
        let fed = mem::replace(&mut self.waiting, VecDeque::new(alloc));
        let room = Frames::from_vec(Vec::from(fed));
        let Ok(decoded) = decode(alloc, room, &mut self.decoder, piece) else {
            self.stuck = true;
            return Err(Memory);
        };
        self.trace.extend(piece);
        self.given += piece.len() as u64;
        self.ended = ended_by(decoded.damage);
        self.waiting = VecDeque::from(decoded.frames.into_vec());
        Ok(())
    }

    /// Reads on, if no frame waits, until one does or the source has ended.
    fn fill(&mut self, alloc: Global, buffer: &mut Buffer) -> Result<(), Memory>
        ensures read { OnOk result (HasRead self.old self.new) }
        ensures ready { OnOk result (IsReady self.new) }
        ensures failed { OnOk result (self.old.ended ≢ Some Fault → FailsFed self.new) }
        ensures waits { OnOk result (ReadsWhereNoneWaits self.old self.new) }
        ensures err { OnErr result (self.new.ended ≡ None) }
    {
        if self.stuck || self.waiting.is_empty() {
            return self.read_on(alloc, buffer);
        }
        Ok(())
    }

    /// Reads on until a frame waits or the source has ended. It isn't inlined into `fill`, so that
    /// a frame that waits costs no call.
    #[inline(never)]
    fn read_on(&mut self, alloc: Global, buffer: &mut Buffer) -> Result<(), Memory>
        ensures read { OnOk result (HasRead self.old self.new) }
        ensures ready { OnOk result (IsReady self.new) }
        ensures failed { OnOk result (self.old.ended ≢ Some Fault → FailsFed self.new) }
        ensures waits { OnOk result (ReadsWhereNoneWaits self.old self.new) }
        ensures err { OnErr result (self.new.ended ≡ None) }
    {
        'reading: while self.is_dry()? {
            self.read_piece(alloc, buffer)?;
        }
        Ok(())
    }

    /// Takes the next frame that waits, if one does; none does once a piece was lost.
    fn pop(&mut self) -> Option<Frame>
        ensures { Pops self.old result self.new }
    {
        frames_are_few();
        if self.stuck {
            return None;
        }
        match self.waiting.pop_front() {
            Some(frame) => {
                self.fed += 1;
                Some(frame)
            }
            None => None,
        }
    }

    /// Feeds the next frame to a group, if there is one; returns whether there was. What arrives
    /// with it is received by these rules and logged. Reads on if no frame waits.
    ///
    /// The only error is that an allocation fails, never that a read failed. No member has the
    /// packet of an arrival that isn't logged then, and the CPU has to be dropped.
    pub fn feed<G: Group>(
        &mut self,
        alloc: Global,
        buffer: &mut Buffer,
        rules: &ArrivalRules,
        group: &mut G,
    ) -> Result<bool, Memory>
        requires block { 82 < rules.now.room }
        requires may_draw { G.may_draw group.old }
        requires room { G.room group.old 9 }
        requires takes { TakesAllOf (G.takes group.old) self.old.path.shape.members rules.now.room
            self.old.number }
        ensures fed { IfOk result (λ more. Feeds G.made G.drew rules.now more
            self.old self.new group.old group.new) }
        ensures lawful { OnOk result ((judge : JudgeRules) (all : List Frame)
            → AgreesAt self.old.number judge (judge_rules_of rules.now) → IsAllOfCpu all self.new
            → IsLawful (rules_by self.old.path.shape judge) all self.old
            → IsLawful (rules_by self.old.path.shape judge) all self.new) }
        ensures waits { OnOk result (ReadsWhereNoneWaits self.old self.new) }
        ensures room { OnOk result ((n : ℕ) → G.room group.old (n + 9) → G.room group.new n) }
        ensures err { OnErr result (HasNotFailed self.old self.new) }
        ensures given_up { OnErr result (GivesUp G.made G.drew rules.now group.old group.new) }
        ensures same { TakesTheSame (G.takes group.old) (G.takes group.new) }
    {
        frames_are_few();
        frames_are_numbered();
        frames_are_captured();
        self.fill(alloc, buffer)?;
        match self.pop() {
            Some(frame) => match self.path.arrive(frame)? {
                Some(arrival) => {
                    self.path.receive(alloc, rules, group, arrival)?;
                    Ok(true)
                }
                None => Ok(true),
            },
            None => Ok(false),
        }
    }

    /// The source, and what is logged of the CPU, once its source has ended.
    pub fn close(self) -> Result<(Option<S>, CpuLog), Memory>
        requires ended { IsSome self.ended }
        ensures { IfOk result (λ closed. Closes self
            (option_map S.seen closed.0) closed.1) }
    {
        frames_are_few();
        if self.stuck {
            return Err(Memory);
        }
        let Some(end) = self.ended else {
            unreachable!();
        };
        let log = CpuLog {
            frames: self.fed + self.waiting.len() as u32,
            given: self.given,
            end,
            arrivals: self.path.into_log(),
        };
        Ok((self.source, log))
    }
}
