//! What is asked of a ring, and whether the ring is valid.
ghost use Rattle.std.specs.Prelude.{◌≡◌};
ghost use Rattle.tp_layout.specs.Requests.{answer_of, receive_fault, slot_fault, transmit_fault};

use crate::{RequestError, Shape};

/// A request for a ring (`struct tpacket_req3` of `linux/if_packet.h`). Sizes are in bytes.
#[derive(Clone, Copy, Debug, PartialEq, Eq)]
pub struct RingRequest {
    /// The size of a block.
    pub block_size: u32,
    /// The number of blocks.
    pub block_nr: u32,
    /// The size of a frame; a block has room for a whole number of them.
    pub frame_size: u32,
    /// The number of frames in all blocks.
    pub frame_nr: u32,
    /// The time-out of a block in milliseconds, 0 for the default.
    pub tov: u32,
    /// The size of the private area of a block.
    pub sizeof_priv: u32,
    /// The features that are asked for; TP_FT_REQ_FILL_RXHASH is 1.
    pub features: u32,
}

/// The size of a page; a block is a whole number of pages.
const PAGE: u32 = 4096;

/// The largest block; this project's own choice.
const LARGEST_BLOCK: u32 = 1_048_576;

/// The fewest blocks; this project's own choice.
const LEAST_BLOCKS: u32 = 2;

/// The most blocks; this project's own choice.
const MOST_BLOCKS: u32 = 256;

/// The largest ring; this project's own choice.
const LARGEST_RING: u64 = 67_108_864;

/// The largest private area; this project's own choice.
const LARGEST_PRIVATE: u32 = 1024;

/// The least size of a frame: TPACKET3_HDRLEN of `linux/if_packet.h`.
const LEAST_FRAME: u32 = 68;

/// TPACKET_ALIGNMENT of `linux/if_packet.h`.
const ALIGNMENT: u32 = 16;

/// TP_FT_REQ_FILL_RXHASH of `linux/if_packet.h`, the only feature.
const FILL_RXHASH: u32 = 1;

/// The most slots of a ring of TPACKET_V2; this project's own choice.
const MOST_SLOTS: u32 = 65_536;

impl RingRequest {
    /// The shape of a receive ring, or why it is invalid (the tests of `packet_set_ring` in the
    /// kernel, with this project's own limits).
    #[tactic(auto, unfolding(crate::specs::Requests::receive_fault))]
    pub fn check(&self) -> Result<Shape, RequestError>
        ensures { result ≡ answer_of self.now (receive_fault self.now) }
    {
        if self.block_size == 0 || self.block_size % PAGE != 0 || self.block_size > LARGEST_BLOCK {
            return Err(RequestError::BlockSize);
        }
        let ring = u64::from(self.block_size) * u64::from(self.block_nr);
        if self.block_nr < LEAST_BLOCKS || self.block_nr > MOST_BLOCKS || ring > LARGEST_RING {
            return Err(RequestError::BlockCount);
        }
        if self.sizeof_priv > LARGEST_PRIVATE {
            return Err(RequestError::Private);
        }
        if self.frame_size < LEAST_FRAME {
            return Err(RequestError::FrameSmall);
        }
        if self.frame_size % ALIGNMENT != 0 {
            return Err(RequestError::FrameAlign);
        }
        let in_a_block = self.block_size / self.frame_size;
        let frames = u64::from(in_a_block) * u64::from(self.block_nr);
        if in_a_block == 0 || frames != u64::from(self.frame_nr) {
            return Err(RequestError::FrameCount);
        }
        if self.features > FILL_RXHASH {
            return Err(RequestError::Feature);
        }
        Ok(Shape::of(*self))
    }

    /// The shape of a transmit ring, or why it is invalid: it has no time-out, no private area and
    /// no feature.
    #[tactic(auto, unfolding(crate::specs::Requests::transmit_fault))]
    pub fn check_tx(&self) -> Result<Shape, RequestError>
        ensures { result ≡ answer_of self.now (transmit_fault self.now) }
    {
        let shape = self.check()?;
        if self.tov != 0 || self.sizeof_priv != 0 || self.features != 0 {
            return Err(RequestError::Transmit);
        }
        Ok(shape)
    }

    /// The shape of a ring of TPACKET_V2, or why it is invalid: the rules are those of a transmit
    /// ring, and that it has at most 65,536 slots.
    #[tactic(auto, unfolding(crate::specs::Requests::slot_fault))]
    pub fn check_v2(&self) -> Result<Shape, RequestError>
        ensures { result ≡ answer_of self.now (slot_fault self.now) }
    {
        let shape = self.check_tx()?;
        if self.frame_nr > MOST_SLOTS {
            return Err(RequestError::Slots);
        }
        Ok(shape)
    }
}
