//! Laws of the definitions, each the contract of a function that does nothing.
ghost use Rattle.std.specs.Prelude.{◌≡◌, ◌+◌, ◌<◌, ◌≤◌, ℕ, List, [], length};
ghost use Rattle.ring_model.specs.Fates.{drops_of, kept_of, totals_of};
ghost use Rattle.ring_model.specs.Ring.{Size, IsRun, MayFollow, first_state, state_of};
ghost use Rattle.ring_model.specs.Rings.{Ring, note_of_put, note_of_tick, note_of_try, state};
ghost use Rattle.ring_model.specs.Unreleased.{IsUnreleased, last_moment};
ghost use Rattle.ring_model.specs.declared.notes.Note.{Note};
ghost use Rattle.ring_model.specs.declared.notes.Offer.{Offer};

/// The note of a put is possible, whatever the reader has released.
pub fn puts_may_follow()
    ensures { (ring : Ring) (offer : Offer)
        → MayFollow ring.size (state ring) (note_of_put ring offer) }
{}

/// The note of a try is possible.
pub fn tries_may_follow()
    ensures { (ring : Ring) (offer : Offer)
        → MayFollow ring.size (state ring) (note_of_try ring offer) }
{}

/// The note of a tick is possible, where the clock doesn't go back.
pub fn ticks_may_follow()
    ensures { (ring : Ring) (ms : ℕ) → (state ring).clock ≤ ms
        → MayFollow ring.size (state ring) (note_of_tick ring ms) }
{}

/// A ring whose notes retire fewer blocks than it has drops nothing.
pub fn a_ring_with_blocks_left_drops_nothing()
    ensures { (size : Size) (notes : List Note) → IsRun size (first_state size) notes
        → length (state_of size notes).done < size.blocks → drops_of notes ≡ [] }
{}

/// Where a put, a try or a tick notes that the next block was still the reader's, the reader hadn't
/// released that block.
pub fn a_block_noted_as_held_is_unreleased()
    ensures puts { (ring : Ring) (offer : Offer)
        → IsUnreleased ring.released (note_of_put ring offer) }
    ensures tries { (ring : Ring) (offer : Offer)
        → IsUnreleased ring.released (note_of_try ring offer) }
    ensures ticks { (ring : Ring) (ms : ℕ)
        → IsUnreleased ring.released (note_of_tick ring ms) }
{}

/// The clock that notes leave is the moment of their last tick, in milliseconds, and 0 where they
/// have none.
pub fn the_clock_is_that_of_the_last_tick()
    ensures { (size : Size) (notes : List Note)
        → (state_of size notes).clock ≡ last_moment 0 notes }
{}

/// Over a whole run the statistics count each packet that a note keeps or drops, and no other.
pub fn statistics_count_each_packet()
    ensures packets { (size : Size) (notes : List Note)
        → (totals_of size notes).packets ≡ length (kept_of notes) + length (drops_of notes) }
    ensures drops { (size : Size) (notes : List Note)
        → (totals_of size notes).drops ≡ length (drops_of notes) }
{}
