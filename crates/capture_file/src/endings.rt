//! How damage ends a capture, for callers: the contract of a function that does nothing.
ghost use Rattle.std.specs.Prelude.{◌≡◌, ◌≢◌, ℕ, List, Some};
ghost use Rattle.capture_file.specs.Capture.{damage_of, end_of};
ghost use Rattle.capture_file.specs.declared.error.CaptureError.{CaptureError};
ghost use Rattle.capture_file.specs.declared.error.CaptureError.TheVariants.{Truncated};

/// A capture with damage ends with it, and damage is no cut.
#[tactic(auto, unfolding(crate::specs::Capture::end_of))]
pub fn damage_is_the_end()
    ensures end { (bytes : List ℕ) (damage : CaptureError) → damage_of bytes ≡ Some damage
        → end_of bytes ≡ Some damage }
    ensures uncut { (bytes : List ℕ) (place : ℕ) → damage_of bytes ≢ Some (Truncated place) }
{}
