//! What a decoder waits for.
ghost use Rattle.std.specs.Prelude.{◌≡◌};
ghost use Rattle.std.specs.Result.{result_err};

use crate::CaptureError;
use crate::format::Format;

/// What comes next in a capture.
#[derive(Clone, Copy, Debug)]
pub(crate) enum Stage {
    /// Its header.
    Header,
    /// A record of this format.
    Records(Format),
    /// Nothing that counts: the capture is damaged.
    Damaged(CaptureError),
}

impl Stage {
    ghost use Rattle.capture_file.specs.Feeds.{stage_with, end_at};

    /// The stage, given whether bytes beyond those that count were fed.
    pub(crate) fn with(self, has_beyond: bool) -> Stage
        ensures { result ≡ stage_with self has_beyond }
    {
        match self {
            Stage::Damaged(damage) => Stage::Damaged(damage),
            _ if has_beyond => Stage::Damaged(CaptureError::TooLarge),
            stage => stage,
        }
    }

    /// How a capture ends at this stage, where its last whole record ends at `stop`, given whether
    /// bytes follow it.
    pub(crate) fn end(self, stop: usize, none_behind: bool) -> Result<(), CaptureError>
        ensures { result_err result ≡ end_at self stop none_behind }
    {
        match self {
            Stage::Damaged(damage) => Err(damage),
            Stage::Records(_) if none_behind => Ok(()),
            _ => Err(CaptureError::Truncated(stop as u64)),
        }
    }
}
