//! The commands that read a setup.

/// What a setup is read for.
#[derive(Clone, Copy, Debug, PartialEq, Eq)]
pub enum Command {
    /// The texts are read, and nothing is run.
    Check,
    /// The captures are replayed as a schedule says.
    Replay,
    /// The captures are fed on threads.
    Capture,
    /// The first CPU's capture is sent through a transmit ring.
    Send,
    /// Frames made from a number are replayed.
    Make,
    /// The captures are fed on threads, and what each member reads is sent through a transmit ring.
    Forward,
    /// The captures are replayed as a schedule says, over rings of TPACKET_V2.
    Replay2,
}
