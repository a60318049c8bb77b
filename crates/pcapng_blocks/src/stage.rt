//! What a decoder waits for.
ghost use Rattle.std.specs.Prelude.{◌≡◌};
ghost use Rattle.std.specs.Result.{result_err};

use crate::BlockError;
use crate::heads::Head;

/// A block that is skipped, of which bytes are still to come.
#[derive(Clone, Copy, Debug)]
pub(crate) struct Skip {
    /// What its head says.
    pub head: Head,
    /// The number of bytes that are still to come before its tail.
    pub left: usize,
}

/// What comes next in a capture.
#[derive(Clone, Copy, Debug)]
pub(crate) enum BlockStage {
    /// A block.
    Blocks,
    /// The rest of a block that is skipped.
    Skipping(Skip),
    /// Nothing that counts: the capture is damaged.
    Damaged(BlockError),
}

impl BlockStage {
    ghost use Rattle.pcapng_blocks.specs.Decoders.{stage_with, end_at};

    /// The stage, given whether bytes beyond those that count were fed.
    pub(crate) fn with(self, has_beyond: bool) -> BlockStage
        ensures { result ≡ stage_with self has_beyond }
    {
        match self {
            BlockStage::Damaged(error) => BlockStage::Damaged(error),
            _ if has_beyond => BlockStage::Damaged(BlockError::TooLarge),
            stage => stage,
        }
    }

    /// How a capture ends at this stage, where its last whole block ends at `stop`, given whether
    /// bytes follow it.
    pub(crate) fn end(self, stop: usize, none_after: bool) -> Result<(), BlockError>
        ensures { result_err result ≡ end_at self stop none_after }
    {
        match self {
            BlockStage::Damaged(error) => Err(error),
            BlockStage::Blocks if none_after => Ok(()),
            _ => Err(BlockError::Truncated(stop as u64)),
        }
    }
}
