//! A decoder of either format.
ghost use Rattle.std.specs.Prelude.{◌≡◌, ◌≢◌, ◌≤◌, [], length, IfOk, OnErr, Err, Some};
ghost use Rattle.capture_file.specs.Capture.{is_pcapng};

use crate::CaptureError;
use crate::pcap_decoder::PcapDecoder;
use frame_view::{Frames, Memory};
use pcapng_blocks::BlockDecoder;
use std::alloc::Global;

/// The type of a section header block, with which a pcapng capture begins in either byte order.
const SECTION_HEADER: [u8; 4] = [0x0a, 0x0d, 0x0d, 0x0a];

/// A decoder of one format.
#[derive(Debug, Drop)]
pub(crate) enum FormatDecoder {
    /// Reads records.
    Pcap(PcapDecoder),
    /// Reads blocks.
    Pcapng(BlockDecoder),
}

impl FormatDecoder {
    ghost use Rattle.capture_file.specs.Decoders.{reads_blocks, RepresentsAs, FeedsFrom, EndsAs};
    ghost use Rattle.capture_file.specs.Decoders.{CountsAs};

    /// A decoder that nothing was fed to, of the format that a capture's first four bytes say.
    #[tactic(auto, unfolding(crate::specs::Capture::is_pcapng))]
    pub(crate) fn new(alloc: Global, cpu: u32, first: &[u8]) -> FormatDecoder
        requires { length first.now ≡ 4 }
        ensures format { reads_blocks result ≡ is_pcapng first.now }
        ensures represents { RepresentsAs cpu result [] }
    {
        if first == SECTION_HEADER.as_slice() {
            FormatDecoder::Pcapng(BlockDecoder::new(alloc, cpu))
        } else {
            FormatDecoder::Pcap(PcapDecoder::new(alloc, cpu))
        }
    }

    /// Takes the next bytes, appends the frames that are whole now, and returns the damage, if
    /// there is any.
    pub(crate) fn feed(
        &mut self,
        piece: &[u8],
        into: &mut Frames,
    ) -> Result<Option<CaptureError>, Memory>
        ensures feeds { IfOk result (λ damage.
            FeedsFrom self.old piece.now damage self.new into.old into.new) }
        ensures format { reads_blocks self.new ≡ reads_blocks self.old }
        ensures told { IfOk result (λ damage. damage ≢ Some CaptureError.Memory) }
        ensures decoder { OnErr result (self.new ≡ self.old) }
        ensures into { OnErr result (into.new ≡ into.old) }
    {
        match self {
            FormatDecoder::Pcap(decoder) => decoder.feed(piece, into),
            FormatDecoder::Pcapng(decoder) => {
                let damage = decoder.feed(piece, into)?;
                Ok(damage.map(CaptureError::from))
            }
        }
    }

    /// How the capture ends if nothing more comes.
    pub(crate) fn end(&self) -> Result<(), CaptureError>
        ensures end { EndsAs self.now result }
        ensures memory { result ≢ Err CaptureError.Memory }
    {
        match self {
            FormatDecoder::Pcap(decoder) => decoder.end(),
            FormatDecoder::Pcapng(decoder) => Ok(decoder.end()?),
        }
    }

    /// The number of bytes that are kept.
    pub(crate) fn rest(&self) -> u32
        ensures kept { CountsAs self.now result }
        ensures few { result ≤ 524287 }
    {
        match self {
            FormatDecoder::Pcap(decoder) => decoder.rest(),
            FormatDecoder::Pcapng(decoder) => decoder.rest(),
        }
    }
}
