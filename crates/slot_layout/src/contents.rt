//! A slot as a ring hands it over: its bytes are what a reader sees, its shape is what all slots
//! of a ring share.
use crate::Slot;
use ring_model::Content;

impl Content for Slot {
    ghost use Rattle.slot_layout.specs.SlotTexts.{SlotBeginsLawfully};
    ghost use Rattle.tp_layout.specs.Requests.{numbers_of};

    ghost bytes = { λ slot. slot.bytes };

    ghost kind = { λ slot. numbers_of slot.shape };

    ghost ready = { λ slot number status. SlotBeginsLawfully slot.shape status slot.bytes };

    ghost ready_is_fact = { λ slot number status. Prim.hlevel };
}
