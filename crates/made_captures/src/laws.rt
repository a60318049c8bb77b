//! Laws of a made input, for callers: each function does nothing, and its contract is the law.
ghost use Rattle.std.specs.Prelude.{◌≡◌, ℕ, ◌≤◌, length, All, None};
ghost use Rattle.capture_file.specs.Capture.{frames_of, end_of};
ghost use Rattle.frame_maker.specs.Made.{made};
ghost use Rattle.made_captures.specs.Made.{as_captured, capture_for, given_to, made_captures};
ghost use Rattle.made_captures.specs.Made.{made_lines};
ghost use Rattle.setup_text.specs.TickOrder.{IsSchedule};

/// Each made capture is whole, and gives back the frames of the seed that its CPU was given, in
/// order, with the CPU's number and with their places.
pub fn a_made_capture_is_whole()
    ensures all { (seed count cpus : ℕ) → count ≤ 20000
        → All (λ text. end_of text ≡ None) (made_captures seed count cpus) }
    ensures whole { (seed count cpus cpu : ℕ) → count ≤ 20000
        → end_of (capture_for seed count cpus cpu) ≡ None }
    ensures frames { (seed count cpus cpu number : ℕ) → count ≤ 20000
        → frames_of number (capture_for seed count cpus cpu)
        ≡ as_captured number 0 (given_to cpus cpu (made seed count)) }
{}

/// A made schedule has few lines.
pub fn a_made_schedule_has_few_lines()
    ensures { (count cpus members : ℕ) → count ≤ 20000 → members ≤ 8
        → length (made_lines count cpus members) ≤ 1048576 }
{}

/// A made schedule has no ticks, so it can be replayed.
pub fn a_made_schedule_has_no_ticks()
    ensures { (count cpus members : ℕ) → IsSchedule (made_lines count cpus members) }
{}
