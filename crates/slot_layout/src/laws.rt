//! Laws of the definitions, each the contract of a function that does nothing.
ghost use Rattle.std.specs.Prelude.{◌≡◌, ℕ, List};
ghost use Rattle.frame_view.specs.declared.frames.Packet.{Packet};
ghost use Rattle.slot_layout.specs.SlotLayouts.{slot_taken, slot_taken_in};
ghost use Rattle.slot_layout.specs.SlotShapes.{IsSlotShape, SlotBounds};
ghost use Rattle.slot_layout.specs.SlotLaws.{HaveOneSlotText, SlotSaid};
ghost use Rattle.slot_layout.specs.SlotTexts.{SlotBegins};
ghost use Rattle.tp_layout.specs.declared.requests.RingRequest.{RingRequest};

/// A lawful text determines the status and the packet of its slot: equal texts have the same ones.
pub fn a_slot_text_says_one_thing()
    ensures { (shape : RingRequest) (first second : SlotSaid)
        → HaveOneSlotText shape first second → first ≡ second }
{}

/// A ring of slots has 2 to 65,536 slots of at most 1 MiB.
#[tactic(auto, using(crate::proofs::SlotBounds::slot_bounds))]
pub fn a_checked_ring_is_bounded()
    ensures { (shape : RingRequest) → IsSlotShape shape → SlotBounds shape }
{}

/// A law, for proofs only: a slot that begins with a lawful text is read as that text's status and
/// packet.
pub fn a_slot_is_read_as_it_was_written()
    ensures { (shape : RingRequest) (status : ℕ) (packet : Packet) (bytes : List ℕ)
        → SlotBegins shape status packet bytes
        → slot_taken_in shape bytes ≡ slot_taken status packet }
{}
