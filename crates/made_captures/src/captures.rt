//! The captures of a seed, as sources in memory.
ghost use Rattle.std.specs.Prelude.{◌≡◌, ◌<◌, ◌≤◌, Some, length, map, All, IfOk};
ghost use Rattle.capture_file.specs.Output.{output_of};
ghost use Rattle.tap_outside.specs.Sources.{unread_sure_source};
ghost use Rattle.made_captures.specs.Made.{made_captures, AreShort};

use crate::dealt_frames::deal;
use capture_file::pcap_text;
use frame_maker::make;
use frame_view::{Memory, Packets};
use std::alloc::Global;
use tap_outside::SureSource;

/// The captures of `cpus` CPUs, from CPU 0 up, over `count` frames of a seed: frame i of
/// `frame_maker::make` is given to CPU i modulo the number of CPUs, and a capture is the output
/// file of its frames. Each is a source that never fails. The only error is that an allocation
/// fails; each frame is moved, and dropped once its capture is written.
///
/// How the frames are spread is this project's own choice.
pub fn made_sources(
    alloc: Global,
    seed: u64,
    count: u32,
    cpus: u32,
) -> Result<Vec<Option<SureSource>>, Memory>
    requires count { count ≤ 20000 }
    requires cpus { 0 < cpus }
    ensures len { IfOk result (λ sources. length sources.items ≡ cpus) }
    ensures sources { IfOk result (λ sources.
        sources.items ≡ map (λ text. Some (unread_sure_source text))
        (made_captures seed count cpus)) }
{
    let frames = make(alloc, seed, count)?;
    let lists = deal(alloc, frames, cpus)?;
    sources_of(alloc, lists)
}

/// A source for each list of packets: its output file.
fn sources_of(alloc: Global, lists: Vec<Packets>) -> Result<Vec<Option<SureSource>>, Memory>
    requires { All AreShort lists.items }
    ensures { IfOk result (λ sources. sources.items
        ≡ map (λ packets. Some (unread_sure_source (output_of packets))) lists.items) }
{
    let mut sources = Vec::with_capacity(alloc, lists.len())?;
    for packets in lists {
        sources.push(Some(SureSource::new(pcap_text(alloc, &packets)?)))?;
    }
    Ok(sources)
}
