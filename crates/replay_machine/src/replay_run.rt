//! A running replay: its CPUs and its group, and what each line does to them.
ghost use Rattle.std.specs.Prelude.{◌<◌, length, IfOk, OnOk};
ghost use Rattle.setup_text.specs.declared.lines.Line.TheVariants.{Feed};
ghost use Rattle.receive_ring.specs.TakenOffers.{MayCome};
ghost use Rattle.setup_text.specs.declared.jobs.Job.{Job as GivenJob};
ghost use Rattle.receive_ring.specs.Rings.{IsRoomOf};
ghost use Rattle.replay_machine.specs.RunStates.{Feeds, HasCount, IsRun};
ghost use Rattle.replay_machine.specs.inside.RunEffects.{FedRest, FedWhole, LineDone};
ghost use Rattle.replay_machine.specs.inside.RunRules.{IsRunBy};

use crate::Setting;
use crate::ring_group::RingGroup;
use crate::room_rules::rules_with;
use capture_reading::Buffer;
use cpu_feed::CpuFeed;
use fanout_group::ArrivalRules;
use frame_view::Memory;
use receive_ring::ReceiveRing;
use setup_text::{Job, Line};
use std::alloc::Global;
use std::marker::Model;
use tap_outside::Source;

/// A replay. Contracts see its CPUs, the rings of its members and the next ticket.
#[derive(Drop)]
pub(crate) struct ReplayRun<S: Source, R: ReceiveRing, K: Setting> {
    /// The CPUs, from 0 up.
    pub(crate) cpus: Vec<CpuFeed<S>>,
    /// The members of the group, and the next ticket.
    pub(crate) group: RingGroup<R, K>,
    /// What the sources are read into.
    pub(crate) buffer: Buffer,
}

impl<S: Source, R: ReceiveRing, K: Setting> Model for ReplayRun<S, R, K> {
    ghost use Rattle.replay_machine.specs.RunStates.{RunValue};

    ghost Value = { RunValue };

    ghost view = { λ run. record {
      cpus = run.cpus.items;
      members = run.group.members;
      ticket = run.group.ticket;
    } };
}

impl<S: Source, R: ReceiveRing, K: Setting> ReplayRun<S, R, K> {
    /// Feeds a CPU its next frame, which is judged by these rules; returns whether it had one.
    fn feed(&mut self, alloc: Global, rules: &ArrivalRules, cpu: usize) -> Result<bool, Memory>
        requires bytes { IsRoomOf (R.steps K.shape) rules.now.room }
        requires counted { HasCount self.old }
        requires cpu { cpu < length self.old.cpus }
        requires run { (job : GivenJob) × IsRunBy (R.steps K.shape) job cpu rules.now self.old }
        ensures { IfOk result (λ more. (job : GivenJob)
            → IsRunBy (R.steps K.shape) job cpu rules.now self.old
            → Feeds (R.steps K.shape) job cpu more self.old self.new) }
    {
        self.cpus[cpu].feed(alloc, &mut self.buffer, rules, &mut self.group)
    }

    /// Carries out one line of a schedule. A number that names no CPU or no member does nothing.
    pub(crate) fn line(
        &mut self,
        alloc: Global,
        job: &Job,
        room: u32,
        line: Line,
    ) -> Result<(), Memory>
        requires bytes { IsRoomOf (R.steps K.shape) room }
        requires run { IsRun (R.steps K.shape) job.now self.old }
        requires counted { HasCount self.old }
        requires later { MayCome line self.old.members }
        ensures { OnOk result (LineDone (R.steps K.shape) job.now line self.old self.new) }
    {
        match line {
            Line::Feed(cpu) => self.feed_line(alloc, job, room, cpu),
            Line::Read(member) => self.group.read(member as usize),
            Line::Tick(ms) => self.group.tick(ms),
            Line::Stats(member) => self.group.take_stats(member as usize),
        }
    }

    /// Feeds a CPU its next frame, if there is such a CPU.
    fn feed_line(&mut self, alloc: Global, job: &Job, room: u32, cpu: u32) -> Result<(), Memory>
        requires bytes { IsRoomOf (R.steps K.shape) room }
        requires run { IsRun (R.steps K.shape) job.now self.old }
        requires counted { HasCount self.old }
        ensures { OnOk result (LineDone (R.steps K.shape) job.now (Feed cpu) self.old self.new) }
    {
        let cpu = cpu as usize;
        if cpu < self.cpus.len() {
            self.feed(alloc, &rules_with(job, cpu, room), cpu)?;
        }
        Ok(())
    }

    /// Feeds the frames that are left: those of CPU 0, then those of CPU 1, and so on.
    pub(crate) fn feed_rest(&mut self, alloc: Global, job: &Job, room: u32) -> Result<(), Memory>
        requires bytes { IsRoomOf (R.steps K.shape) room }
        requires run { IsRun (R.steps K.shape) job.now self.old }
        requires counted { HasCount self.old }
        ensures { OnOk result (FedRest (R.steps K.shape) job.now self.old self.new) }
    {
        for cpu in 0..self.cpus.len() {
            self.feed_all(alloc, job, room, cpu)?;
        }
        Ok(())
    }

    /// Feeds all frames of a CPU that are left.
    fn feed_all(&mut self, alloc: Global, job: &Job, room: u32, cpu: usize) -> Result<(), Memory>
        requires bytes { IsRoomOf (R.steps K.shape) room }
        requires run { IsRun (R.steps K.shape) job.now self.old }
        requires counted { HasCount self.old }
        requires cpu { cpu < length self.old.cpus }
        ensures { OnOk result (FedWhole (R.steps K.shape) job.now cpu self.old self.new) }
    {
        let rules = rules_with(job, cpu, room);
        'feeding: while self.feed(alloc, &rules, cpu)? {}
        Ok(())
    }
}
