//! Laws of the definitions, each the contract of a function that does nothing.
ghost use Rattle.std.specs.Prelude.{◌≡◌, ◌+◌, ◌<◌, ℕ, List, None, length, slice_index_or, true};
ghost use Rattle.frame_view.specs.declared.frames.Frame.{Frame};
ghost use Rattle.ip_defrag.specs.Datagrams.{byte_at, covers, own_byte};
ghost use Rattle.ip_defrag.specs.Fold.{pass};
ghost use Rattle.ip_defrag.specs.Held.{AreHeld};

/// If nothing comes out, each frame that was held, and the new one, is held or was given up.
pub fn no_frame_is_lost()
    ensures { (held : List Frame) (frame : Frame) → (pass held frame).whole ≡ None
        → (pass held frame).discarded + length (pass held frame).held ≡ length held + 1 }
{}

/// Among fragments that don't conflict, each that has a place gives the datagram its byte there. So
/// no order of arrival changes a byte.
pub fn each_byte_is_its_fragments()
    ensures { (frames : List Frame) (at place : ℕ) (d : Frame) → AreHeld frames → at < length frames
        → covers (slice_index_or frames at d) place ≡ true
        → byte_at frames place ≡ own_byte (slice_index_or frames at d) place }
{}
