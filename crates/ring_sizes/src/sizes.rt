//! The least ring that never freezes.
ghost use Rattle.std.specs.Prelude.{◌≡◌, ◌↔◌, ◌+◌, ◌<◌, ◌≤◌, ◌^◌, ℕ, List};
ghost use Rattle.ring_events.specs.Happenings.{NeverFreezes};
ghost use Rattle.ring_events.specs.declared.events.Happening.{Happening};
ghost use Rattle.ring_sizes.specs.EventLists.{events_of};
ghost use Rattle.ring_sizes.specs.Passes.{IsWithin, first_pass, offered, passed, ticked};
ghost use Rattle.ring_sizes.specs.Passes.{with_next};
ghost use Rattle.ring_sizes.specs.Rests.{read_on};

use crate::Event;

/// What a ring that always has a block more has come to. A caller that has its events one after
/// another need not keep them.
#[derive(Clone, Copy)]
pub struct Pass {
    /// Retired blocks.
    done: u64,
    /// The bytes that the packets of the open block take.
    used: u64,
    /// The open block has no packet.
    empty: bool,
    /// The moment that the last tick reported, in milliseconds.
    clock: u64,
    /// The moment from which a tick finds the open block's time over.
    deadline: u128,
    /// Released blocks.
    released: u64,
    /// The least number of blocks with which each look so far finds its block free.
    least: u64,
}

/// The least number of blocks, at least 1, with which a ring never freezes, in this run: with
/// blocks that have this room for packets, and this time-out in milliseconds. A ring of more blocks
/// doesn't freeze either, and does the same.
pub fn least(room: u32, tov: u64, events: &[Event]) -> u64
    ensures some { 1 ≤ result }
    ensures threshold { (blocks : ℕ) (happenings : List Happening)
        → events_of happenings ≡ events.now → 1 ≤ blocks
        → NeverFreezes (record { room = room; blocks = blocks; tov = tov }) happenings
        ↔ (result ≤ blocks) }
{
    let mut pass = Pass::new(tov);
    for event in events {
        pass.take(*event, room, tov);
    }
    pass.least
}

impl Pass {
    /// Before the first event.
    pub fn new(tov: u64) -> Pass
        ensures { result ≡ first_pass tov }
    {
        Pass {
            done: 0,
            used: 0,
            empty: true,
            clock: 0,
            deadline: u128::from(tov),
            released: 0,
            least: 1,
        }
    }

    /// The least number of blocks, at least 1, with which a ring has not frozen so far.
    pub fn least(&self) -> u64
        ensures { result ≡ self.now.least }
    {
        self.least
    }

    /// Retired blocks.
    pub fn done(&self) -> u64
        ensures { result ≡ self.now.done }
    {
        self.done
    }

    /// Takes one more event.
    pub fn take(&mut self, event: Event, room: u32, tov: u64)
        requires { IsWithin (2 ^ 63) self.old }
        ensures goes { self.new ≡ passed room tov event self.old }
        ensures used { self.new.used < 2 ^ 32 }
    {
        match event {
            Event::Packet(need) => self.offer(need, room, tov),
            Event::Tick(ms) => self.tick(ms, tov),
            Event::Read => {
                if self.released < self.done {
                    self.released += 1;
                }
            }
            Event::ReadAll => self.released = self.done,
        }
    }

    /// Takes a packet.
    pub fn offer(&mut self, need: u32, room: u32, tov: u64)
        requires { IsWithin (2 ^ 63) self.old }
        ensures goes { self.new ≡ offered room tov need self.old }
        ensures used { self.new.used < 2 ^ 32 }
    {
        let need = u64::from(need);
        if self.used + need <= u64::from(room) {
            self.used += need;
        } else {
            self.open_next();
            self.used = need;
            self.deadline = u128::from(self.clock) + u128::from(tov);
        }
        self.empty = false;
    }

    /// The open block has no packet.
    pub fn is_empty(&self) -> bool
        ensures { result ≡ self.now.empty }
    {
        self.empty
    }

    /// Takes a tick.
    pub fn tick(&mut self, ms: u64, tov: u64)
        requires { IsWithin (2 ^ 63) self.old }
        ensures goes { self.new ≡ ticked tov ms self.old }
        ensures used { self.new.used < 2 ^ 32 }
    {
        self.clock = ms;
        if u128::from(ms) < self.deadline {
            return;
        }
        if !self.empty {
            self.open_next();
            self.used = 0;
            self.empty = true;
        }
        self.deadline = u128::from(ms) + u128::from(tov);
    }

    /// Takes steps of the reader, each of which reads all that is there, or one block.
    pub fn read(&mut self, steps: u64, takes_all: bool)
        requires { IsWithin (2 ^ 63) self.old }
        ensures { self.new ≡ read_on takes_all steps self.old }
    {
        if !takes_all {
            self.released += steps.min(self.done - self.released);
        } else if 0 < steps {
            self.released = self.done;
        }
    }

    /// Retires the open block and opens the next, for which there is always room: a ring that has
    /// as many blocks as it takes finds it free.
    fn open_next(&mut self)
        requires { IsWithin (2 ^ 63) self.old }
        ensures { self.new ≡ with_next self.old }
    {
        self.done += 1;
        self.least = self.least.max(self.done + 1 - self.released);
    }
}
