//! Laws of the definitions, each the contract of a function that does nothing.
ghost use Rattle.std.specs.Prelude.{◌≡◌, ℕ, List};
ghost use Rattle.ring_model.specs.declared.notes.Offer.{Offer};
ghost use Rattle.tp_layout.specs.Blocks.{BeginsWith};
ghost use Rattle.tp_layout.specs.Dump.{packets_of_offers};
ghost use Rattle.tp_layout.specs.Laws.{GoIn, HaveOneText, Said, written};
ghost use Rattle.tp_layout.specs.declared.requests.RingRequest.{RingRequest};

/// A lawful text determines the number, the status and the packets of its block: equal texts have
/// the same ones.
pub fn a_text_says_one_thing()
    ensures { (shape : RingRequest) (first second : Said)
        → HaveOneText shape first second → first ≡ second }
{}

/// A block that was opened, filled with the packets of offers one after another and closed begins
/// with the lawful text of its number, its status and these packets.
pub fn a_closed_block_begins_with_its_text()
    ensures { (shape : RingRequest) (number status : ℕ) (offers : List Offer) (bytes : List ℕ)
        → GoIn shape number status offers bytes
        → BeginsWith shape number status (packets_of_offers shape offers)
        (written shape number status offers bytes) }
{}
