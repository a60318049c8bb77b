//! Laws of a ring of slots, each the contract of a function that does nothing.
ghost use Rattle.std.specs.Prelude.{◌≡◌, ◌<◌, ℕ, List, [], length, map};
ghost use Rattle.ring_model.specs.Fates.{counts_of, drops_of, kept_of, totals_of};
ghost use Rattle.ring_model.specs.Ring.{Size};
ghost use Rattle.ring_model.specs.Rings.{Ring};
ghost use Rattle.ring_model.specs.Unreleased.{IsUnreleased};
ghost use Rattle.ring_model.specs.declared.notes.Note.{Note};
ghost use Rattle.ring_model.specs.declared.notes.Offer.{Offer};
ghost use Rattle.slot_layout.specs.SlotFates.{slot_counts_of, slot_totals_of, without_freezes};
ghost use Rattle.slot_layout.specs.SlotRings.{slot_note_of_put, slot_note_of_try, slot_state};
ghost use Rattle.slot_layout.specs.SlotSteps.{IsSlotRun, SlotMayFollow, first_slot_state};
ghost use Rattle.slot_layout.specs.SlotSteps.{slot_state_of};

/// The note of a put is possible, whatever the reader has released.
pub fn slot_puts_may_follow()
    ensures { (ring : Ring) (offer : Offer)
        → SlotMayFollow ring.size.blocks (slot_state ring) (slot_note_of_put ring offer) }
{}

/// The note of a try is possible.
pub fn slot_tries_may_follow()
    ensures { (ring : Ring) (offer : Offer)
        → SlotMayFollow ring.size.blocks (slot_state ring) (slot_note_of_try ring offer) }
{}

/// A ring whose notes fill fewer slots than it has drops nothing.
pub fn a_ring_with_slots_left_drops_nothing()
    ensures { (slots : ℕ) (notes : List Note) → IsSlotRun slots first_slot_state notes
        → length (slot_state_of notes).done < slots → drops_of notes ≡ [] }
{}

/// Where a put or a try notes that the next slot was still the reader's, the reader hadn't released
/// that slot.
pub fn a_slot_noted_as_held_is_unreleased()
    ensures puts { (ring : Ring) (offer : Offer)
        → IsUnreleased ring.released (slot_note_of_put ring offer) }
    ensures tries { (ring : Ring) (offer : Offer)
        → IsUnreleased ring.released (slot_note_of_try ring offer) }
{}

/// The filled slots have the packets that were kept, in order.
pub fn the_filled_slots_are_the_kept_packets()
    ensures { (notes : List Note)
        → map (λ slot. slot.0) (slot_state_of notes).done ≡ kept_of notes }
{}

/// The statistics of a ring of slots are those of a ring of blocks with the same notes, whatever
/// its size, except that it has no freezes.
pub fn a_slot_ring_counts_as_a_ring_of_blocks()
    ensures counts { (size : Size) (notes : List Note)
        → slot_counts_of notes ≡ map without_freezes (counts_of size notes) }
    ensures totals { (size : Size) (notes : List Note)
        → slot_totals_of notes ≡ without_freezes (totals_of size notes) }
{}
