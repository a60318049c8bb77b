//! Six frames of 60 bytes of which three blocks lose more than two.
use ring_sizes::{Event, least, losses};

const ROOM: u32 = 4048;

const TOV: u64 = 8;

const EVENTS: [Event; 18] = [
    Event::Packet(144),
    Event::Tick(58),
    Event::Packet(144),
    Event::Tick(68),
    Event::Tick(73),
    Event::Read,
    Event::Read,
    Event::Packet(144),
    Event::Tick(77),
    Event::Packet(144),
    Event::Tick(81),
    Event::Tick(87),
    Event::Tick(93),
    Event::Packet(144),
    Event::Tick(100),
    Event::Packet(144),
    Event::ReadAll,
    Event::ReadAll,
];

/// Two blocks freeze once and drop none, three drop one, four never freeze.
#[test]
fn more_blocks_may_lose_more(rt: HostRuntime) {
    let two = losses(ROOM, 2, TOV, &EVENTS);
    let three = losses(ROOM, 3, TOV, &EVENTS);
    let four = losses(ROOM, 4, TOV, &EVENTS);
    assert_eq!(rt; (two.packets, two.drops, two.freezes), (6, 0, 1));
    assert_eq!(rt; three.drops, 1);
    assert_eq!(rt; (four.drops, four.freezes), (0, 0));
    assert_eq!(rt; least(ROOM, TOV, &EVENTS), 4);
}
