//! A group of rings in which packets roll over, and the way of each frame to a ring.
ghost use Rattle.std.specs.Prelude.{◌≡◌, ◌+◌, ◌<◌, ◌^◌, ℕ, All, length};
ghost use Rattle.group_sizes.specs.Groups.{AreRings, Group, IsGroup, IsRoute, home_in, keeper_of};
ghost use Rattle.group_sizes.specs.Groups.{routed};
ghost use Rattle.ring_sizes.specs.Courses.{IsSmall};

use ring_sizes::{Course, Event};

/// The rings of a group in which a packet that its member has no room for is tried at the others.
#[derive(Clone, Copy, Debug)]
pub struct GroupRings {
    /// How many members there are, 1 to 8.
    pub members: u32,
    /// How many CPUs there are, at most 8.
    pub cpus: u32,
    /// In mode rollover a frame is for the present member of its CPU first: 0, and then the member
    /// of the last try.
    pub by_present: bool,
    /// The bytes of a block that are for packets.
    pub room: u32,
    /// How many blocks each ring has.
    pub blocks: u32,
}

/// The way of a frame to a ring.
#[derive(Clone, Copy, Debug)]
pub struct Route {
    /// The CPU that it comes from, from 0.
    pub cpu: u16,
    /// The member that it is for first, from 0, unless that is the CPU's present member.
    pub home: u16,
}

impl GroupRings {
    /// Gives a frame, which takes so many bytes of a block, to the first ring from its home on that
    /// keeps it, or else to its home. `presents` has the present member of each CPU.
    pub(crate) fn give(
        &self,
        courses: &mut [Course],
        presents: &mut [u16],
        need: u32,
        route: Route,
        tov: u64,
    )
        requires rings { AreRings self.now }
        requires route { IsRoute self.now route }
        requires group { IsGroup self.now
            (record { courses = courses.old; presents = presents.old }) }
        requires small { All (IsSmall (2 ^ 62)) courses.old }
        ensures goes { let after : Group =
            record { courses = courses.new; presents = presents.new } in
            after ≡ routed self.now tov need route
            (record { courses = courses.old; presents = presents.old }) }
        ensures group { IsGroup self.now
            (record { courses = courses.new; presents = presents.new }) }
        ensures small { (bound : ℕ) → All (IsSmall bound) courses.old
            → All (IsSmall (bound + 1)) courses.new }
    {
        let home = self.home(presents, route);
        let member = self.keeper(courses, need, home);
        courses[member as usize].take(Event::Packet(need), self.room, self.blocks, tov);
        if self.by_present {
            presents[usize::from(route.cpu)] = member as u16;
        }
    }

    /// The member that a frame is for first.
    fn home(&self, presents: &[u16], route: Route) -> u32
        requires route { IsRoute self.now route }
        requires cpus { length presents.now ≡ self.now.cpus }
        requires inside { All (λ member. member < self.now.members) presents.now }
        ensures home { (group : Group) → group.presents ≡ presents.now
            → result ≡ home_in self.now route group }
        ensures inside { result < self.now.members }
    {
        if self.by_present {
            u32::from(presents[usize::from(route.cpu)])
        } else {
            u32::from(route.home)
        }
    }

    /// The first member from the home on round the group whose ring keeps a packet that takes so
    /// many bytes of a block; the home where none does.
    fn keeper(&self, courses: &[Course], need: u32, home: u32) -> u32
        requires rings { AreRings self.now }
        requires members { length courses.now ≡ self.now.members }
        requires home { home < self.now.members }
        requires small { All (IsSmall (2 ^ 62)) courses.now }
        ensures keeper { result ≡ keeper_of self.now need courses.now home }
        ensures inside { result < self.now.members }
    {
        let mut member = home;
        let mut left = self.members;
        while 0 < left {
            if courses[member as usize].takes(need, self.room, self.blocks) {
                return member;
            }
            member = (member + 1) % self.members;
            left -= 1;
        }
        home
    }
}
