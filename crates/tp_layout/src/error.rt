//! Why a ring is invalid, and why a block isn't read.
ghost use Rattle.std.specs.Prelude.{◌≡◌, Some};
ghost use Rattle.tp_layout.specs.LayoutWords.{kind_word, layout_text};
ghost use Rattle.tp_layout.specs.RequestWords.{word_of};

use std::error::Error;
use std::fmt;

/// Why a ring is invalid. The tests are made in this order, and the first that fails is reported.
#[derive(Clone, Copy, Debug, PartialEq, Eq)]
pub enum RequestError {
    /// A block isn't made of one or more whole pages of 4096 bytes, or has more than 1,048,576
    /// bytes.
    BlockSize,
    /// There are fewer than 2 blocks or more than 256, or they have more than 67,108,864 bytes in
    /// all.
    BlockCount,
    /// The private area has more than 1024 bytes.
    Private,
    /// A frame has fewer than 68 bytes (TPACKET3_HDRLEN).
    FrameSmall,
    /// The size of a frame isn't a multiple of 16 (TPACKET_ALIGNMENT).
    FrameAlign,
    /// No frame fits into a block, or the number of frames that fit into all blocks isn't the one
    /// asked for.
    FrameCount,
    /// A feature other than TP_FT_REQ_FILL_RXHASH (1) is asked for.
    Feature,
    /// A transmit ring is asked for with a time-out, a private area or a feature.
    Transmit,
    /// A ring of TPACKET_V2 has more than 65,536 slots.
    Slots,
}

impl RequestError {
    /// The word for the fault, as the program prints it.
    pub fn word(&self) -> &'static str
        ensures { result.now ≡ word_of self.now }
    {
        match self {
            RequestError::BlockSize => "block_size",
            RequestError::BlockCount => "block_count",
            RequestError::Private => "private",
            RequestError::FrameSmall => "frame_small",
            RequestError::FrameAlign => "frame_align",
            RequestError::FrameCount => "frame_count",
            RequestError::Feature => "feature",
            RequestError::Transmit => "transmit",
            RequestError::Slots => "slots",
        }
    }
}

impl fmt::Display for RequestError {
    ghost output = { λ error. Some (word_of error) };

    fn fmt<W: fmt::Write>(&self, f: &mut fmt::Formatter<W>) -> fmt::Result {
        f.write_str(self.word())
    }
}

impl Error for RequestError {}

/// What is wrong at a place of a block.
#[derive(Clone, Copy, Debug, PartialEq, Eq)]
pub enum LayoutKind {
    /// The version isn't 2 (TPACKET_V3).
    Version,
    /// The packets don't end where the block says.
    Length,
    /// An offset to the private area, to the first packet or to the next one is wrong.
    Offset,
    /// There is no packet, or no room for as many as the block says.
    Count,
    /// A snap length is 0, above the wire length, or reaches past the block's end.
    Snap,
    /// Another field has a number that it must not have.
    Field,
}

impl LayoutKind {
    /// The word for what is wrong, as the program prints it.
    pub fn word(&self) -> &'static str
        ensures { result.now ≡ kind_word self.now }
    {
        match self {
            LayoutKind::Version => "version",
            LayoutKind::Length => "length",
            LayoutKind::Offset => "offset",
            LayoutKind::Count => "count",
            LayoutKind::Snap => "snap",
            LayoutKind::Field => "field",
        }
    }
}

/// The first fault of a block.
#[derive(Clone, Copy, Debug, PartialEq, Eq)]
pub struct LayoutError {
    /// What is wrong.
    pub kind: LayoutKind,
    /// The place in the block, in bytes.
    pub at: u32,
}

impl LayoutError {
    /// The fault of this kind at this place.
    pub fn new(kind: LayoutKind, at: u32) -> LayoutError
        ensures { result ≡ record { kind = kind; at = at } }
    {
        LayoutError { kind, at }
    }
}

impl fmt::Display for LayoutError {
    ghost output = { λ error. Some (layout_text error) };

    fn fmt<W: fmt::Write>(&self, f: &mut fmt::Formatter<W>) -> fmt::Result {
        write!(f, "{} at {}", self.kind.word(), self.at)
    }
}

impl Error for LayoutError {}
