//! Laws of pcapng captures, for callers: each function does nothing, and its contract is the law.
ghost use Rattle.std.specs.Prelude.{◌≡◌, ◌≢◌, ℕ, ◌+◌, ◌*◌, ◌<◌, ◌≤◌, List, ◌++◌, length, slice_get};
ghost use Rattle.std.specs.Prelude.{All, Some, IsTrue, IsSome, IfSome};
ghost use Rattle.std.specs.List.{sum_by};
ghost use Rattle.frame_view.specs.declared.frames.Frame.{Frame};
ghost use Rattle.pcapng_blocks.specs.Capture.{counted, frames_of, damage_of, stop_of, end_of};
ghost use Rattle.pcapng_blocks.specs.Capture.{is_skipping};
ghost use Rattle.pcapng_blocks.specs.Numbers.{number_at};
ghost use Rattle.pcapng_blocks.specs.declared.byte_order.Order.TheVariants.{Little};
ghost use Rattle.pcapng_blocks.specs.Decoders.{kept_of};
ghost use Rattle.pcapng_blocks.specs.Laws.{IsPacketFrame, FitsFrame};
ghost use Rattle.pcapng_blocks.specs.declared.error.BlockError.{BlockError};

/// More bytes only append frames.
pub fn frames_only_grow()
    ensures { (cpu : ℕ) (fed more : List ℕ) → (new : List Frame)
        × (frames_of cpu (fed ++ more) ≡ frames_of cpu fed ++ new) }
{}

/// Damage stays: more bytes change neither it nor the frames.
pub fn damage_stays()
    ensures damage { (fed more : List ℕ) (error : BlockError) → damage_of fed ≡ Some error
        → damage_of (fed ++ more) ≡ Some error }
    ensures frames { (cpu : ℕ) (fed more : List ℕ) (error : BlockError)
        → damage_of fed ≡ Some error → frames_of cpu (fed ++ more) ≡ frames_of cpu fed }
{}

/// A capture with damage ends with it, and damage is no cut.
pub fn damage_is_the_end()
    ensures end { (fed : List ℕ) (error : BlockError) → damage_of fed ≡ Some error
        → end_of fed ≡ Some error }
    ensures uncut { (fed : List ℕ) (place : ℕ) → damage_of fed ≢ Some (BlockError.Truncated place) }
{}

/// A capture of more than 33,554,432 bytes is damaged, so feeding it ends.
pub fn too_many_bytes_are_damage()
    ensures { (fed : List ℕ) → 33554432 < length fed → IsSome (damage_of fed) }
{}

/// Frames are numbered from 0, carry the number of their CPU and have no tag. Each has a fraction
/// below a second, and no more bytes than were on the wire and than 262,144.
pub fn frames_are_packets()
    ensures { (cpu index : ℕ) (fed : List ℕ) →
        IfSome (slice_get (frames_of cpu fed) index) (IsPacketFrame cpu index) }
{}

/// Each frame has at least 16 bytes of the capture before its stop, and together they have no more
/// bytes than that. A capture that begins with a section header has at most 2,097,150 frames.
pub fn frames_are_few()
    ensures count { (cpu : ℕ) (fed : List ℕ) → 16 * length (frames_of cpu fed) ≤ stop_of fed }
    ensures few { (cpu : ℕ) (fed : List ℕ) → number_at Little 4 0 (counted fed) ≡ 0x0a0d0d0a
        → length (frames_of cpu fed) ≤ 2097150 }
    ensures bytes { (cpu : ℕ) (fed : List ℕ) →
        sum_by (λ frame. length frame.bytes) (frames_of cpu fed) ≤ stop_of fed }
    ensures stop { (fed : List ℕ) → stop_of fed ≤ length fed }
{}

/// At most the bytes of a capture from its stop on are kept; in a block that is skipped at most 3
/// bytes, and after damage none.
pub fn few_bytes_are_kept()
    ensures after { (fed : List ℕ) → stop_of fed + length (kept_of fed) ≤ length fed }
    ensures skipped { (fed : List ℕ) → IsTrue (is_skipping fed) → length (kept_of fed) ≤ 3 }
    ensures damaged { (fed : List ℕ) → IsSome (damage_of fed) → length (kept_of fed) ≡ 0 }
{}

/// The numbers of each frame of a list of bytes have 32 bits.
pub fn frames_fit()
    ensures { (cpu : ℕ) (fed : List ℕ) → All (λ byte. byte < 256) fed
        → All FitsFrame (frames_of cpu fed) }
{}
