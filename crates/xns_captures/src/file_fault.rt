//! Why a file is not read to its end.
use crate::fault::CaptureFault;
use thiserror::Error;
use xns_lines::RunFault;

/// Whether a run over a file refused something of it, or why the run stopped before the end of the file.
pub type FileResult = Result<bool, FileFault>;

/// Why a run over a capture stopped before the end of the file.
#[derive(Clone, Copy, Debug, PartialEq, Eq, Error)]
pub enum FileFault {
    /// Reading, writing or memory failed.
    #[error(transparent)]
    Run(RunFault),
    /// The capture has over [`crate::MOST_FRAMES`].
    #[error("the capture has over 4,294,967,295 frames")]
    TooManyFrames,
    /// The capture can't be read on.
    #[error(transparent)]
    Capture(CaptureFault),
}
