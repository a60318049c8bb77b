//! Blocks of a page with one frame, for the tests.
ghost use Rattle.std.specs.Prelude.{◌≡◌, ◌+◌, ◌<◌, ◌≤◌, IfOk, IfSome, IsTrue, length};
ghost use Rattle.frame_view.specs.Vlan.{is_tpid};
ghost use Rattle.ring_model.specs.Sizes.{need_of};
ghost use Rattle.tp_layout.specs.Blocks.{BeginsLawfully};
ghost use Rattle.tp_layout.specs.Requests.{first_of};
ghost use Rattle.tp_layout.specs.BlockWrites.{IsWritable};

use frame_view::{ByteList, Frame, Memory, Tag};
use ring_model::{Offer, need};
use std::alloc::Global;
use std::test::Fail;
use tp_layout::{
    Block, Closing, LayoutKind, RingRequest, Shape, blocks, close_header, walk, write_header,
    write_packet,
};

/// Two blocks of a page.
pub(crate) const PAGES: RingRequest = RingRequest {
    block_size: 4096,
    block_nr: 2,
    frame_size: 2048,
    frame_nr: 4,
    tov: 0,
    sizeof_priv: 0,
    features: 0,
};

/// A broadcast frame of 14 bytes.
pub(crate) const FRAME: [u8; 14] = [0xff, 0xff, 0xff, 0xff, 0xff, 0xff, 2, 0, 0, 0, 0, 1, 8, 6];

/// Block 1 with only that frame, at 1 second and 2,000 nanoseconds, written by another program.
pub(crate) const TEXT: &[u8] = b"\x02\x00\x00\x00\x30\x00\x00\x00\x01\x00\x00\x00\x01\x00\x00\x00\
    \x30\x00\x00\x00\x90\x00\x00\x00\x01\x00\x00\x00\x00\x00\x00\x00\
    \x01\x00\x00\x00\xd0\x07\x00\x00\x01\x00\x00\x00\xd0\x07\x00\x00\
    \x00\x00\x00\x00\x01\x00\x00\x00\xd0\x07\x00\x00\x0e\x00\x00\x00\
    \x0e\x00\x00\x00\x01\x00\x00\x00\x52\x00\x60\x00\x00\x00\x00\x00\
    \x00\x00\x00\x00\x00\x00\x00\x00\x00\x00\x00\x00\x00\x00\x00\x00\
    \x11\x00\x08\x06\x01\x00\x00\x00\x01\x00\x01\x06\x02\x00\x00\x00\
    \x00\x01\x00\x00\x00\x00\x00\x00\x00\x00\x00\x00\x00\x00\x00\x00\
    \x00\x00\xff\xff\xff\xff\xff\xff\x02\x00\x00\x00\x00\x01\x08\x06";

/// The offer of a frame of these bytes, of which some are kept.
pub(crate) fn offer(
    alloc: Global,
    bytes: &[u8],
    snap: u32,
    wire: u32,
    tag: Option<Tag>,
) -> Result<Offer, Memory>
    requires whole { 14 ≤ length bytes.now }
    requires some { 0 < snap }
    requires kept { snap ≤ length bytes.now }
    requires wire { snap ≤ wire }
    requires tag { IfSome tag (λ tag. IsTrue (is_tpid tag.tpid)) }
    ensures sound { IfOk result IsWritable }
    ensures snap { IfOk result (λ offer. offer.snap ≡ snap) }
{
    Ok(Offer {
        frame: Frame {
            cpu: 0,
            index: 0,
            sec: 1,
            nsec: 2_000,
            wire,
            bytes: ByteList::from_vec(bytes.to_vec(alloc)?),
            tag,
        },
        snap,
        hash: 0,
        pkttype: 1,
    })
}

/// A block of zeros.
#[tactic(auto, using(crate::proofs::Alike::last_alike))]
pub(crate) fn new_block(alloc: Global, shape: &Shape) -> Result<Block, Fail>
    ensures { IfOk result (λ block. block.shape ≡ shape.now) }
{
    let mut all = blocks(alloc, shape)?;
    match all.pop() {
        Some(block) => Ok(block),
        None => Err("a ring has blocks".into()),
    }
}

/// Block 1 with only the packet of an offer, retired with status 1.
pub(crate) fn block_with(alloc: Global, shape: &Shape, offer: &Offer) -> Result<Block, Fail>
    requires sound { IsWritable offer.now }
    requires fits { first_of shape.now + need_of offer.now.snap ≤ shape.now.block_size }
    ensures shape { IfOk result (λ block. block.shape ≡ shape.now) }
    ensures text { IfOk result (λ block. BeginsLawfully block.shape 1 1 block.bytes) }
{
    let mut block = new_block(alloc, shape)?;
    let first = shape.first();
    let frame = &offer.frame;
    write_header(&mut block, shape, 1);
    write_packet(&mut block, shape, first, offer);
    close_header(
        &mut block,
        shape,
        &Closing {
            status: 1,
            packets: 1,
            length: first + need(offer.snap),
            last_at: first,
            first_sec: frame.sec,
            first_nsec: frame.nsec,
            last_sec: frame.sec,
            last_nsec: frame.nsec,
        },
    );
    Ok(block)
}

/// The bytes from a place up to another, as far as there are any.
pub(crate) fn part(bytes: &[u8], from: usize, to: usize) -> &[u8] {
    let (front, _) = bytes.split_at(to.min(bytes.len()));
    let (_, back) = front.split_at(from.min(front.len()));
    back
}

/// The fault of a block and its place, if it has one.
pub(crate) fn fault(bytes: &[u8], shape: &Shape) -> Option<(LayoutKind, u32)>
    requires { length bytes.now ≡ shape.now.block_size }
{
    match walk(bytes, shape) {
        Ok(_) => None,
        Err(fault) => Some((fault.kind, fault.at)),
    }
}
