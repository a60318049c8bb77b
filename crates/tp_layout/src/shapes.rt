//! The shape of the blocks of a ring, from a request that passed its tests.
ghost use Rattle.std.specs.Prelude.{◌≡◌, ◌+◌, ◌%◌, ◌<◌, ◌≤◌};
ghost use Rattle.tp_layout.specs.Requests.{IsShape, fills_hash, first_of, room_of, time_out_of};

use crate::RingRequest;
use std::marker::Model;

/// The shape of the blocks of a ring. Contracts see it as the request that it came from.
#[derive(Clone, Copy, Debug, PartialEq, Eq)]
pub struct Shape {
    /// The request, which passed its tests.
    request: RingRequest,
}

impl Model for Shape {
    ghost use Rattle.tp_layout.specs.declared.requests.RingRequest.{RingRequest};

    ghost Value = { RingRequest };

    ghost use Rattle.tp_layout.specs.Requests.{IsShape};

    ghost view = { λ shape. shape.request };

    ghost invariant = { λ shape. IsShape shape.request };

    ghost inverse = { λ request. record { request = request } };
}

/// The bytes of a block's descriptor (`struct tpacket_block_desc` of `linux/if_packet.h`).
const DESCRIPTOR: u32 = 48;

/// The time-out in milliseconds if none is asked for; this project's own choice.
const USUAL_TIME_OUT: u64 = 8;

impl Shape {
    /// The shape of a request that passed its tests.
    pub(crate) fn of(request: RingRequest) -> Shape
        requires { IsShape request }
        ensures { result ≡ request }
    {
        Shape { request }
    }

    /// The bytes of a block: whole pages, at most 1 MiB.
    pub fn block_size(&self) -> u32
        ensures value { result ≡ self.now.block_size }
        ensures sound { IsShape self.now }
    {
        self.request.block_size
    }

    /// The number of blocks, 2 to 256.
    pub fn block_nr(&self) -> u32
        ensures value { result ≡ self.now.block_nr }
        ensures few { result ≤ 256 }
    {
        self.request.block_nr
    }

    /// The bytes of a frame; a block has room for a whole number of them.
    pub fn frame_size(&self) -> u32
        ensures value { result ≡ self.now.frame_size }
        ensures least { 68 ≤ result }
    {
        self.request.frame_size
    }

    /// The number of frames in all blocks.
    pub fn frame_nr(&self) -> u32
        ensures { result ≡ self.now.frame_nr }
    {
        self.request.frame_nr
    }

    /// The place of a block's first packet, in bytes: after the descriptor and the private area,
    /// rounded up to 8.
    pub fn first(&self) -> u32
        ensures value { result ≡ first_of self.now }
        ensures aligned { result % 8 ≡ 0 }
        ensures low { result ≤ 1072 }
        ensures sound { IsShape self.now }
    {
        DESCRIPTOR + self.request.sizeof_priv.div_ceil(8) * 8
    }

    /// The bytes of a block that are for packets.
    pub fn room(&self) -> u32
        ensures value { result ≡ room_of self.now }
        ensures aligned { result % 8 ≡ 0 }
        ensures all { first_of self.now + result ≡ self.now.block_size }
    {
        self.request.block_size - self.first()
    }

    /// The time-out of a block in milliseconds, 8 if the request has 0.
    pub fn tov(&self) -> u64
        ensures { result ≡ time_out_of self.now }
    {
        match self.request.tov {
            0 => USUAL_TIME_OUT,
            tov => u64::from(tov),
        }
    }

    /// Whether a packet has the hash of its flow.
    pub fn fill_hash(&self) -> bool
        ensures value { result ≡ fills_hash self.now }
        ensures sound { IsShape self.now }
    {
        self.request.features == 1
    }
}

/// A law: a shape passed the tests of its request, and the room of its blocks is what they have
/// after the place of the first packet. The call does nothing.
pub fn a_shape_is_sound(shape: &Shape)
    ensures sound { IsShape shape.now }
    ensures room { first_of shape.now + room_of shape.now ≡ shape.now.block_size }
    ensures aligned { room_of shape.now % 8 ≡ 0 }
{
    let _ = &shape.request;
}
