//! The frames of a seed.
ghost use Rattle.std.specs.Prelude.{◌≡◌, ◌<◌, ◌≤◌, length, All, IfOk, OnOk};
ghost use Rattle.frame_maker.specs.Made.{made, made_frame, made_parts, after_frame, payload_of};
ghost use Rattle.frame_maker.specs.Made.{IsMade};

use crate::generator::Generator;
use frame_view::{ByteList, Frame, Frames, Memory, Parts, build};
use std::alloc::Global;

/// Makes the frames of a seed: UDP datagrams from 10.0.0.0/16, ports from 1024 on, to 10.1.0.0/24,
/// port 53, with 0 to 1,400 bytes, a thousand per second from time 0 on, all of CPU 0, without a
/// tag. Its memory is about the frames' bytes. The list is this project's own choice.
#[tactic(auto, using(crate::proofs::Steps::steps, crate::proofs::Each::each), unfolding(crate::specs::Made::made))]
pub fn make(alloc: Global, seed: u64, count: u32) -> Result<Frames, Memory>
    requires { count ≤ 20000 }
    ensures frames { IfOk result (λ frames. frames ≡ made seed count) }
    ensures len { IfOk result (λ frames. length frames ≡ count) }
    ensures each { IfOk result (All IsMade) }
{
    let mut generator = Generator { state: seed };
    let mut frames = Vec::with_capacity(alloc, count as usize)?;
    for index in 0..count {
        frames.push(made_frame(alloc, index, &mut generator)?)?;
    }
    Ok(Frames::from_vec(frames))
}

/// The frame with a number, from the next four draws.
#[tactic(auto, unfolding(crate::specs::Made::made_frame))]
fn made_frame(alloc: Global, index: u32, generator: &mut Generator) -> Result<Frame, Memory>
    requires { index < 20000 }
    ensures frame { IfOk result (λ frame. frame ≡ made_frame index generator.old.state) }
    ensures state { OnOk result (generator.new.state ≡ after_frame generator.old.state) }
{
    let parts = made_parts(alloc, index, generator)?;
    let bytes = build(alloc, &parts)?;
    Ok(Frame {
        cpu: 0,
        index,
        sec: index / 1000,
        nsec: index % 1000 * 1_000_000,
        wire: bytes.len() as u32,
        bytes,
        tag: None,
    })
}

/// The parts of the frame with a number, from the next four draws.
#[tactic(auto, unfolding(crate::specs::Made::made_parts, crate::specs::Made::after_frame))]
fn made_parts(alloc: Global, index: u32, generator: &mut Generator) -> Result<Parts, Memory>
    requires { index < 20000 }
    ensures short { IfOk result (λ parts. length parts.payload ≤ 1400) }
    ensures parts { IfOk result (λ parts. parts ≡ made_parts index generator.old.state) }
    ensures state { OnOk result (generator.new.state ≡ after_frame generator.old.state) }
{
    let source = 0x0a00_0000 + generator.draw() % 65536;
    let dest = 0x0a01_0000 + generator.draw() % 256;
    let sport = 1024 + (generator.draw() % 4096) as u16;
    let len = generator.draw() % 1401;
    Ok(Parts {
        to: [0x02, 0, 0, 0, 0, 0x02],
        from: [0x02, 0, 0, 0, 0, 0x01],
        ident: index as u16,
        source,
        dest,
        sport,
        dport: 53,
        payload: payload(alloc, index, len)?,
    })
}

/// The payload of the frame with a number.
#[tactic(auto, using(crate::proofs::Steps::steps))]
fn payload(alloc: Global, index: u32, len: u32) -> Result<ByteList, Memory>
    requires number { index < 20000 }
    requires short { len ≤ 1400 }
    ensures value { IfOk result (λ bytes. bytes ≡ payload_of index len) }
    ensures len { IfOk result (λ bytes. length bytes ≡ len) }
{
    let mut bytes = Vec::with_capacity(alloc, len as usize)?;
    for place in 0..len {
        bytes.push(((index + place) % 256) as u8)?;
    }
    Ok(ByteList::from_vec(bytes))
}
