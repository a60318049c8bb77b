//! The note of a packet, by what the ring found for it.
ghost use Rattle.std.specs.Prelude.{◌≡◌, ◌≤◌};
ghost use Rattle.ring_model.specs.KnownReleases.{put_by, try_by};
ghost use Rattle.ring_model.specs.Sizes.{need_of};
ghost use Rattle.ring_model.specs.Told.{put_told, try_told};
ghost use Rattle.ring_model.specs.declared.notes.Note.TheVariants.{Dropped};

use crate::sizes::need;
use crate::{Found, Note, Offer, Put, Tried};

/// The note of a packet that was put, and what the put reports: the packet is dropped where the
/// ring found the next block or slot still with the reader. The snap length is at most 1,048,576.
pub fn noted_put(offer: Offer, found: Found) -> (Note, Put)
    requires { offer.snap ≤ 1048576 }
    ensures note { result.0 ≡ put_by offer found }
    ensures put { result.1 ≡ put_told (put_by offer found) }
{
    match found {
        Found::Held(number) => (noted_drop(&offer, number), Put::Dropped(number)),
        found => (Note::Kept { offer, found }, Put::Kept),
    }
}

/// The note of a packet that is dropped, where the block or slot of this number was still the
/// reader's. The snap length is at most 1,048,576. A packet that is kept is moved whole, and so this
/// isn't inlined beside it.
#[inline(never)]
pub fn noted_drop(offer: &Offer, number: u64) -> Note
    requires { offer.now.snap ≤ 1048576 }
    ensures { result
        ≡ Dropped offer.now.frame.cpu offer.now.frame.index (need_of offer.now.snap) number }
{
    Note::Dropped {
        cpu: offer.frame.cpu,
        index: offer.frame.index,
        need: need(offer.snap),
        number,
    }
}

/// The note of a packet that was tried, and what the try reports: the packet is handed back where
/// the ring found the next block or slot still with the reader. The snap length is at most
/// 1,048,576.
pub fn noted_try(offer: Offer, found: Found) -> (Note, Tried)
    requires { offer.snap ≤ 1048576 }
    ensures note { result.0 ≡ try_by offer found }
    ensures tried { result.1 ≡ try_told offer (try_by offer found) }
{
    match found {
        Found::Held(number) => {
            let note = Note::Refused {
                cpu: offer.frame.cpu,
                index: offer.frame.index,
                need: need(offer.snap),
                number,
            };
            (note, Tried::Refused(offer))
        }
        found => (Note::Kept { offer, found }, Tried::Kept),
    }
}
