//! Laws of the definitions, each the contract of a function that does nothing.
ghost use Rattle.std.specs.Prelude.{◌≡◌, ◌++◌, ℕ, Err};
ghost use Rattle.tx_ring.specs.Laws.{HasStoppedAt};
ghost use Rattle.tx_ring.specs.Rings.{TxState};
ghost use Rattle.tx_ring.specs.Sends.{after_send, send_answer, taken_by};
ghost use Rattle.tx_ring.specs.declared.error.SendError.TheVariants as errors;

/// No request is lost: those that a send takes, followed by those that it leaves, are all that
/// there were, in order.
pub fn no_request_is_lost()
    ensures { (ring : TxState) → taken_by ring ++ (after_send ring).requests ≡ ring.requests }
{}

/// Once a send has reported a bad slot, the ring has stopped there for good.
pub fn a_bad_slot_stops_for_good()
    ensures { (ring : TxState) (slot : ℕ)
        → send_answer ring ≡ Err (errors.BadSlot slot) → HasStoppedAt slot (after_send ring) }
{}
