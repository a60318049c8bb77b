//! What a ring of a given size loses.
ghost use Rattle.std.specs.Prelude.{◌≡◌, ◌+◌, ◌<◌, ◌≤◌, ◌^◌, ℕ, List};
ghost use Rattle.ring_events.specs.Happenings.{IsPlain, all_happened};
ghost use Rattle.ring_events.specs.declared.events.Happening.{Happening};
ghost use Rattle.ring_model.specs.Fates.{totals_of};
ghost use Rattle.ring_model.specs.Ring.{Size};
ghost use Rattle.ring_model.specs.Rings.{fresh};
ghost use Rattle.ring_sizes.specs.Courses.{IsSmall, at_due, course_stats, fed, first_course};
ghost use Rattle.ring_sizes.specs.Courses.{is_free, is_idle, opened, over_time, takes, went_on};
ghost use Rattle.ring_sizes.specs.EventLists.{events_of};
ghost use Rattle.ring_sizes.specs.Rests.{course_read, is_still};

use crate::Event;
use ring_model::Stats;

/// The open block of a ring.
#[derive(Clone, Copy)]
enum CourseBlock {
    /// There is none.
    Frozen,
    /// It has no packet.
    Empty,
    /// It has packets.
    Filled,
}

/// What a ring has come to.
#[derive(Clone, Copy)]
pub struct Course {
    /// Retired blocks.
    done: u64,
    /// The bytes that the packets of the open block take.
    used: u64,
    block: CourseBlock,
    /// The moment that the last tick reported, in milliseconds.
    clock: u64,
    /// The moment from which a tick finds the open block's time over.
    deadline: u128,
    /// Released blocks.
    released: u64,
    /// Packets kept and dropped, and how often the ring froze.
    kept: u64,
    dropped: u64,
    freezes: u64,
}

/// The statistics over a whole run of a ring: with blocks that have this room for packets, this
/// number of them, and this time-out in milliseconds.
pub fn losses(room: u32, blocks: u32, tov: u64, events: &[Event]) -> Stats
    ensures { (happenings : List Happening) → events_of happenings ≡ events.now
        → IsPlain happenings
        → let size : Size = record { room = room; blocks = blocks; tov = tov } in
        result ≡ totals_of size (all_happened happenings (fresh size)).notes }
{
    let mut course = Course::new(tov);
    for event in events {
        course.take(*event, room, blocks, tov);
    }
    course.stats()
}

impl Course {
    /// Before the first event.
    pub fn new(tov: u64) -> Course
        ensures { result ≡ first_course tov }
    {
        Course {
            done: 0,
            used: 0,
            block: CourseBlock::Empty,
            clock: 0,
            deadline: u128::from(tov),
            released: 0,
            kept: 0,
            dropped: 0,
            freezes: 0,
        }
    }

    /// The statistics of the run.
    pub fn stats(&self) -> Stats
        requires { self.now.kept + self.now.dropped < 2 ^ 64 }
        ensures { result ≡ course_stats self.now }
    {
        Stats {
            packets: self.kept + self.dropped,
            drops: self.dropped,
            freezes: self.freezes,
        }
    }

    /// Takes one more event.
    pub fn take(&mut self, event: Event, room: u32, blocks: u32, tov: u64)
        requires { IsSmall (2 ^ 63) self.old }
        ensures goes { self.new ≡ went_on room blocks tov event self.old }
        ensures used { self.new.used < 2 ^ 32 }
    {
        match event {
            Event::Packet(need) => self.feed(need, room, blocks, tov),
            Event::Tick(ms) => self.tick(ms, blocks, tov),
            Event::Read => {
                if self.released < self.done {
                    self.released += 1;
                }
            }
            Event::ReadAll => self.released = self.done,
        }
    }

    /// Takes steps of the reader, each of which reads all that is there, or one block.
    pub fn read(&mut self, steps: u64, takes_all: bool)
        requires { IsSmall (2 ^ 63) self.old }
        ensures { self.new ≡ course_read takes_all steps self.old }
    {
        if !takes_all {
            self.released += steps.min(self.done - self.released);
        } else if 0 < steps {
            self.released = self.done;
        }
    }

    /// Whether it keeps a packet that takes so many bytes of a block.
    pub fn takes(&self, need: u32, room: u32, blocks: u32) -> bool
        requires { IsSmall (2 ^ 63) self.now }
        ensures { result ≡ takes room blocks need self.now }
    {
        let fits = self.used + u64::from(need) <= u64::from(room);
        self.opened() == 1 && fits || self.is_free(blocks)
    }

    /// Takes a packet.
    fn feed(&mut self, need: u32, room: u32, blocks: u32, tov: u64)
        requires { IsSmall (2 ^ 63) self.old }
        ensures goes { self.new ≡ fed room blocks tov need self.old }
        ensures used { self.new.used < 2 ^ 32 }
    {
        let need = u64::from(need);
        let fits = self.used + need <= u64::from(room);
        if self.opened() == 1 && fits {
            self.used += need;
            self.block = CourseBlock::Filled;
            self.kept += 1;
        } else if self.is_free(blocks) {
            self.done += self.opened();
            self.used = need;
            self.block = CourseBlock::Filled;
            self.deadline = u128::from(self.clock) + u128::from(tov);
            self.kept += 1;
        } else {
            self.freeze();
            self.dropped += 1;
        }
    }

    /// Takes a tick.
    pub fn tick(&mut self, ms: u64, blocks: u32, tov: u64)
        requires { IsSmall (2 ^ 63) self.old }
        ensures goes { self.new ≡ over_time blocks tov ms self.old }
        ensures used { self.new.used < 2 ^ 32 }
    {
        self.clock = ms;
        if u128::from(ms) < self.deadline {
            return;
        }
        self.time_out(blocks);
        self.deadline = u128::from(ms) + u128::from(tov);
    }

    /// Whether the open block is empty, and its time over at this moment.
    pub fn is_still(&self, ms: u64) -> bool
        ensures { result ≡ is_still ms self.now }
    {
        matches!(self.block, CourseBlock::Empty) && self.deadline <= u128::from(ms)
    }

    /// Retired blocks.
    pub fn done(&self) -> u64
        ensures { result ≡ self.now.done }
    {
        self.done
    }

    /// Whether a tick changes nothing but the clock and the deadline: the open block is empty, or
    /// there is none, and the next one is still the reader's.
    pub fn is_idle(&self, blocks: u32) -> bool
        requires { IsSmall (2 ^ 63) self.now }
        ensures { result ≡ is_idle blocks self.now.block self.now }
    {
        match self.block {
            CourseBlock::Empty => true,
            CourseBlock::Frozen => !self.is_free(blocks),
            CourseBlock::Filled => false,
        }
    }

    /// Takes a block's time-out.
    fn time_out(&mut self, blocks: u32)
        requires { IsSmall (2 ^ 63) self.old }
        ensures goes { self.new ≡ at_due blocks self.old.block self.old }
        ensures used { self.new.used < 2 ^ 32 }
    {
        match self.block {
            CourseBlock::Empty => {}
            CourseBlock::Frozen | CourseBlock::Filled => {
                if self.is_free(blocks) {
                    self.done += self.opened();
                    self.used = 0;
                    self.block = CourseBlock::Empty;
                } else {
                    self.freeze();
                }
            }
        }
    }

    /// Closes an open block with none after it, and counts the freeze.
    fn freeze(&mut self)
        requires { IsSmall (2 ^ 63) self.old }
        ensures { self.new ≡ record self.old {
          done = self.old.done + opened self.old.block;
          used = 0;
          block = CourseBlock.Frozen;
          freezes = self.old.freezes + opened self.old.block;
        } }
    {
        self.done += self.opened();
        self.freezes += self.opened();
        self.used = 0;
        self.block = CourseBlock::Frozen;
    }

    /// 1 where a block is open, which a next one would close.
    fn opened(&self) -> u64
        ensures { result ≡ opened self.now.block }
    {
        match self.block {
            CourseBlock::Frozen => 0,
            CourseBlock::Empty | CourseBlock::Filled => 1,
        }
    }

    /// Whether the next block isn't the reader's.
    fn is_free(&self, blocks: u32) -> bool
        requires { IsSmall (2 ^ 63) self.now }
        ensures { result ≡ is_free blocks self.now }
    {
        self.done + self.opened() + 1 <= self.released + u64::from(blocks)
    }
}
