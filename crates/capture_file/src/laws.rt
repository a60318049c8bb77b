//! Laws of captures, for callers: each function does nothing, and its contract is the law.
ghost use Rattle.std.specs.Prelude.{◌≡◌, ◌≢◌, ℕ, ◌^◌, ◌<◌, ◌≤◌, List, [], ◌++◌, length, slice_get};
ghost use Rattle.std.specs.Prelude.{All, IsSome, IfSome};
ghost use Rattle.std.specs.List.{sum_by};
ghost use Rattle.frame_view.specs.declared.frames.Frame.{Frame};
ghost use Rattle.frame_view.specs.declared.frames.Packet.{Packet};
ghost use Rattle.capture_file.specs.Capture.{frames_of, damage_of, end_of};
ghost use Rattle.capture_file.specs.Output.{output_of};
ghost use Rattle.capture_file.specs.Laws.{IsNumbered, IsCaptured, FitsFrame, IsWritable};
ghost use Rattle.capture_file.specs.Laws.{frames_back};
ghost use Rattle.capture_file.specs.declared.error.CaptureError.{CaptureError};

/// A capture without a byte has no frame and no damage.
pub fn an_empty_capture_has_no_frames()
    ensures frames { (cpu : ℕ) → frames_of cpu [] ≡ [] }
    ensures damage { damage_of [] ≡ None }
{}

/// More bytes only append frames.
pub fn frames_only_grow()
    ensures { (cpu : ℕ) (fed more : List ℕ) → (new : List Frame)
        × (frames_of cpu (fed ++ more) ≡ frames_of cpu fed ++ new) }
{}

/// Damage stays: more bytes change neither it nor the frames.
pub fn damage_stays()
    ensures damage { (fed more : List ℕ) (damage : CaptureError) → damage_of fed ≡ Some damage
        → damage_of (fed ++ more) ≡ Some damage }
    ensures frames { (cpu : ℕ) (fed more : List ℕ) → IsSome (damage_of fed)
        → frames_of cpu (fed ++ more) ≡ frames_of cpu fed }
{}

/// Damage and end are named by what is wrong with the capture, and never by `Memory`.
pub fn damage_is_not_memory()
    ensures damage { (fed : List ℕ) → damage_of fed ≢ Some CaptureError.Memory }
    ensures end { (fed : List ℕ) → end_of fed ≢ Some CaptureError.Memory }
{}

/// A capture of more than 33,554,432 bytes is damaged, so feeding it ends.
pub fn too_many_bytes_are_damage()
    ensures { (fed : List ℕ) → 33554432 < length fed → IsSome (damage_of fed) }
{}

/// Frames are numbered from 0, carry the number of their CPU and have no tag.
pub fn frames_are_numbered()
    ensures { (cpu index : ℕ) (fed : List ℕ) →
        IfSome (slice_get (frames_of cpu fed) index) (IsNumbered cpu index) }
{}

/// Each frame has a fraction below a second, and no more bytes than were on the wire and than
/// 262,144.
pub fn frames_are_captured()
    ensures { (cpu : ℕ) (fed : List ℕ) → All IsCaptured (frames_of cpu fed) }
{}

/// The numbers of each frame of a list of bytes have 32 bits.
pub fn frames_fit()
    ensures { (cpu : ℕ) (fed : List ℕ) → cpu < 2 ^ 32 → All (λ byte. byte < 256) fed
        → All FitsFrame (frames_of cpu fed) }
{}

/// There are at most 2,097,150 frames, and together they have no more bytes than the capture.
pub fn frames_are_few()
    ensures count { (cpu : ℕ) (fed : List ℕ) → length (frames_of cpu fed) ≤ 2097150 }
    ensures bytes { (cpu : ℕ) (fed : List ℕ) →
        sum_by (λ frame. length frame.bytes) (frames_of cpu fed) ≤ length fed }
{}

/// An output file of at most 33,554,432 bytes is a whole capture, which gives back the time, the
/// frame and the original length of each packet.
pub fn output_reads_back()
    ensures frames { (cpu : ℕ) (packets : List Packet) → All IsWritable packets
        → length (output_of packets) ≤ 33554432
        → frames_of cpu (output_of packets) ≡ frames_back cpu 0 packets }
    ensures end { (packets : List Packet) → All IsWritable packets
        → length (output_of packets) ≤ 33554432
        → end_of (output_of packets) ≡ None }
{}
