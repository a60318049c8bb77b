//! Laws of runs, each the contract of a function that does nothing.
ghost use Rattle.std.specs.Prelude.{◌≡◌, ◌+◌, ◌≤◌, ℕ, List, All, None, Some};
ghost use Rattle.ring_events.specs.Happenings.{IsNeverHeld, all_happened};
ghost use Rattle.ring_events.specs.declared.events.Happening.{Happening};
ghost use Rattle.ring_laws.specs.Alike.{AreLikeHappenings, AreLikeNotes, AreLikeStats, Gap};
ghost use Rattle.ring_laws.specs.Alike.{IsLikeRing, IsLikeState, KeepsSnaps, WentOnAlike};
ghost use Rattle.ring_laws.specs.Beginnings.{IsLike, beginning, frozen_beginning};
ghost use Rattle.ring_laws.specs.Beginnings.{is_lossless, start};
ghost use Rattle.ring_laws.specs.Freezes.{IsNoRefusal};
ghost use Rattle.ring_laws.specs.Runs.{IsCourse, IsWithinBounds, pause};
ghost use Rattle.ring_model.specs.Fates.{stats_of, stretches_from, totals_of};
ghost use Rattle.ring_model.specs.Ring.{Size, State, IsRun, first_state};
ghost use Rattle.ring_model.specs.Rings.{Ring, fresh, state};
ghost use Rattle.ring_model.specs.Sizes.{need_of};
ghost use Rattle.ring_model.specs.declared.notes.Note.{Note};
ghost use Rattle.ring_model.specs.declared.notes.Offer.{Offer};

/// In a run without a refusal whose statistics count no freeze no note found its block still the
/// reader's.
pub fn a_ring_that_counted_no_freeze_found_none_held()
    ensures { (size : Size) (notes : List Note) → IsRun size (first_state size) notes
        → All IsNoRefusal notes → (totals_of size notes).freezes ≡ 0 → IsNeverHeld notes }
{}

/// Every ring of a run is within its bounds: so its time-out is ahead, and no more blocks are with
/// the reader than it has.
pub fn a_ring_of_a_run_is_within_its_bounds()
    ensures { (size : Size) (happenings : List Happening) → IsCourse size happenings
        → IsWithinBounds (all_happened happenings (fresh size)) }
{}

/// A new ring is brought to the state of any ring of a run. To that of an open one: if packets were
/// lost since the statistics were last taken, by losing one and getting all blocks back; then by a
/// packet and a due tick for each block that is with the reader, the packets of the open block, and
/// a tick. To that of a frozen one: by a packet and a due tick for each block, one packet more if
/// some were lost, a read for each block that isn't with the reader, and a tick.
pub fn a_new_ring_is_brought_to_the_state_of_any_ring()
    ensures open_ring { (size : Size) (happenings : List Happening) (offer : Offer)
        (offers : List Offer)
        → IsCourse size happenings → need_of offer.snap ≤ size.room
        → let ring = all_happened happenings (fresh size) in
        (state ring).now ≡ Some offers → IsLike ring (beginning offer offers ring) }
    ensures frozen_ring { (size : Size) (happenings : List Happening) (offer : Offer)
        → IsCourse size happenings → need_of offer.snap ≤ size.room
        → let ring = all_happened happenings (fresh size) in
        (state ring).now ≡ None → IsLike ring (frozen_beginning offer ring) }
{}

/// After a pause a ring of a run is as a new one, or as a new one that lost a packet if it has lost
/// some since its statistics were last taken. A pause: the reader reads at least as many blocks as
/// there are, then the clock comes to a moment at least the time-out after the tick before it, then
/// the reader reads once more, and no packet comes meanwhile. So a run may be cut there, whatever
/// was before.
pub fn a_run_may_be_cut_at_a_pause()
    ensures { (size : Size) (happenings : List Happening) (times ms : ℕ) (offer : Offer)
        → IsCourse size happenings → need_of offer.snap ≤ size.room → size.blocks ≤ times
        → let ring = all_happened happenings (fresh size) in
        (state ring).clock + size.tov ≤ ms
        → IsLike (all_happened (pause times ms) ring) (start size offer (is_lossless ring)) }
{}

/// Two rings of one size go on alike, whatever happens to them, if their open blocks have the same
/// packets, equally many blocks are with the reader, the deadline is as far off, and packets were
/// lost in both or in neither: they keep and drop the same packets and retire the same blocks, but
/// for numbers of blocks and moments. So a run may be cut at any moment: what follows is that of a
/// new ring that was brought to such a state. Of the statistics taken since, the first ones differ
/// by what either ring had counted before, and all later ones are the same.
pub fn rings_alike_go_on_alike()
    ensures rings { (gap : Gap) (happenings others : List Happening) (one other : Ring)
        → KeepsSnaps gap → IsLikeRing gap one other → AreLikeHappenings gap happenings others
        → WentOnAlike gap one other (all_happened happenings one) (all_happened others other) }
    ensures stats { (gap : Gap) (size : Size) (notes other_notes : List Note) (one other : State)
        → KeepsSnaps gap → IsLikeState gap one other → AreLikeNotes gap notes other_notes
        → AreLikeStats (stats_of one) (stats_of other)
        (stretches_from size one notes) (stretches_from size other other_notes) }
{}
